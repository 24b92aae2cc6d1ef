// What stands of every refusal of the plain meter: what it leaves, and which cause it tells; and what a procedure leaves besides what it was called for.
#![tactic(auto)]

ghost use Rattle.std.specs.Prelude.{◌≡◌};
ghost use Rattle.causes.specs.Answering.{ProceduresAnswer};
ghost use Rattle.causes.specs.Leaving.{answer_room, RefusedLeaves};
ghost use Rattle.causes.specs.Orders.{EarlierIsTold, OrdersNumbered};

// The most bytes that an answer has.
#[tactic(auto, using(crate::proofs::Leaves::refused_leaves, crate::proofs::Earlier::earlier_is_told, crate::proofs::Earlier::orders_numbered, crate::proofs::Answering::procedures_answer))]
pub fn answer_room() -> u32
    ensures value { result ≡ answer_room }
    ensures leaves { RefusedLeaves }
    ensures earlier { EarlierIsTold }
    ensures numbered { OrdersNumbered }
    ensures procedures { ProceduresAnswer }
{
    1_028
}
