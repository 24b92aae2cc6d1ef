// A place in a request's bytes. Numbers are most significant byte first.
ghost use Rattle.std.specs.Prelude.{◌≡◌, ◌+◌, ◌<◌, ◌≤◌, length, drop, take, true, false, IfOk, IfErr};
ghost use Rattle.fields.specs.Words.{part, big_word};
ghost use Rattle.refusals.specs.declared.fault.ServiceFault.TheVariants.{Malformed};
ghost use Rattle.request.specs.Asks.{whole};

use crate::sums::byte_sum;
use refusals::fault::ServiceFault;

#[derive(Drop)]
pub(crate) struct Reader<'a> {
    bytes: &'a [u8],
    at: usize,
    ghost inside: { at ≤ length bytes.now },
}

impl<'a> Reader<'a> {
    // After the service byte.
    pub(crate) fn after_service(bytes: &'a [u8]) -> Reader<'a>
        requires { 0 < length bytes.now }
        ensures { (result.bytes.now ≡ bytes.now) × (result.at ≡ 1) }
    {
        Reader { bytes, at: 1 }
    }

    // The bytes that are left.
    fn rest(&self) -> &'a [u8]
        ensures { result.now ≡ drop self.now.at self.now.bytes.now }
    {
        let bytes = self.bytes;
        &bytes[self.at..]
    }

    // Three alike contracts: each has its own number and width, and a definition would take those as arguments.
    fn next<const N: usize>(&mut self) -> Result<[u8; N], ServiceFault>
        ensures bytes { self.new.bytes.now ≡ self.old.bytes.now }
        ensures there { IfOk result (λ new. (self.old.at + N ≤ length self.old.bytes.now) × (new ≡ part N self.old.at self.old.bytes.now) × (self.new.at ≡ self.old.at + N)) }
        ensures short { IfErr result (λ e. (e ≡ Malformed) × (length self.old.bytes.now < self.old.at + N)) }
    {
        match self.rest().first_chunk() {
            Some(new) => {
                self.at += N;
                Ok(*new)
            }
            None => Err(ServiceFault::Malformed),
        }
    }

    #[tactic(auto, using(fields::proofs::Numbers::part_2), unfolding(fields::specs::Words::big_word))]
    pub(crate) fn next16(&mut self) -> Result<u16, ServiceFault>
        ensures bytes { self.new.bytes.now ≡ self.old.bytes.now }
        ensures there { IfOk result (λ n. (n ≡ big_word 2 self.old.at self.old.bytes.now) × (self.new.at ≡ self.old.at + 2)) }
        ensures short { IfErr result (λ e. (e ≡ Malformed) × (length self.old.bytes.now < self.old.at + 2)) }
    {
        Ok(u16::from_be_bytes(self.next::<2>()?))
    }

    #[tactic(auto, using(crate::proofs::Three::part_3), unfolding(fields::specs::Words::big_word))]
    pub(crate) fn next24(&mut self) -> Result<u32, ServiceFault>
        ensures bytes { self.new.bytes.now ≡ self.old.bytes.now }
        ensures there { IfOk result (λ n. (n ≡ big_word 3 self.old.at self.old.bytes.now) × (self.new.at ≡ self.old.at + 3)) }
        ensures short { IfErr result (λ e. (e ≡ Malformed) × (length self.old.bytes.now < self.old.at + 3)) }
    {
        let [a, b, c] = self.next::<3>()?;
        Ok(u32::from_be_bytes([0, a, b, c]))
    }

    // Nothing more may be left.
    pub(crate) fn end(self) -> Result<(), ServiceFault>
        ensures none { IfOk result (λ _. length self.entry.bytes.now ≡ self.entry.at) }
        ensures more { IfErr result (λ e. (e ≡ Malformed) × (self.entry.at < length self.entry.bytes.now)) }
    {
        if self.at == self.bytes.len() {
            Ok(())
        } else {
            Err(ServiceFault::Malformed)
        }
    }

    // What is left, if it is so many bytes and a check that makes them sum to 0.
    pub(crate) fn content(self, count: u16) -> Result<&'a [u8], ServiceFault>
        ensures sound { IfOk result (λ new. (whole self.entry.at count self.entry.bytes.now ≡ true) × (new.now ≡ part count self.entry.at self.entry.bytes.now)) }
        ensures unsound { IfErr result (λ e. (e ≡ Malformed) × (whole self.entry.at count self.entry.bytes.now ≡ false)) }
    {
        let rest = self.rest();
        let count = count as usize;
        if rest.len() == count + 1 && byte_sum(rest) == 0 {
            Ok(&rest[0..count])
        } else {
            Err(ServiceFault::Malformed)
        }
    }
}
