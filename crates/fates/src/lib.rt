// Stagings and their fates. They are definitions, in specs/, which the ledger of a life is made of; here is what stands of them.
#![tactic(auto)]

ghost use Rattle.std.specs.Prelude.{◌≡◌};
ghost use Rattle.pending.specs.Tables.{all_tables};
ghost use Rattle.fates.specs.Fates.{FateLaws};

use pending::table::PendingTable;

// The tables that can be staged, in the order in which they take force together.
#[tactic(auto, using(crate::proofs::AllLaws::fate_laws))]
pub fn order() -> [PendingTable; 3]
    ensures tables { result ≡ all_tables }
    ensures laws { FateLaws }
{
    PendingTable::ALL
}
