// A session: an image, once a command made one.
ghost use Rattle.std.specs.Prelude.{◌≡◌, None};
ghost use Rattle.session.specs.Sessions.{state_of};

use crate::held::HeldImage;

#[derive(Drop)]
pub struct Session {
    pub image: Option<HeldImage>,
}

impl Session {
    // A session with no image.
    pub fn new() -> Session
        ensures { state_of result ≡ None }
    {
        Session { image: None }
    }
}
