//! What the definitions of this crate say together. Each function is a law: its contract is what it is
//! for, and it does nothing when it runs.

ghost use Rattle.std.specs.Prelude.{◌≡◌, ◌≢◌, ◌↔◌, ℕ, List, Some, Ok, Err};
ghost use Rattle.dsmcc_messages.specs.declared.dii.Dii.{Dii};
ghost use Rattle.dsmcc_messages.specs.Message.{data_block, indication, IsOfKind};
ghost use Rattle.dsmcc_messages.specs.Dii.{IsDii};
ghost use Rattle.dsmcc_messages.specs.Ddb.{DataBlock, IsDdb};
ghost use Rattle.dsmcc_messages.specs.Reading.{ddb_in, dii_in};

use bml_bytes::{TableFault, law_of_fields};

/// A section has at most one list of fields of a DII, and reading gives it.
pub fn law_of_dii()
    ensures one { (section : List ℕ) (dii other : Dii) →
        IsDii section dii → IsDii section other → dii ≡ other }
    ensures ok { (section : List ℕ) (dii : Dii) →
        IsDii section dii ↔ (dii_in section ≡ Ok dii) }
    ensures kind { (section : List ℕ) →
        IsOfKind indication section ↔ (dii_in section ≢ Err TableFault.Kind) }
    ensures short { (section : List ℕ) → dii_in section ≡ Err TableFault.Short →
        IsOfKind indication section × ((dii : Dii) → ¬ IsDii section dii) }
{
    law_of_fields();
}

/// A section has at most one list of fields of a DDB, and reading gives it.
pub fn law_of_ddb()
    ensures one { (section : List ℕ) (ddb other : DataBlock) →
        IsDdb section ddb → IsDdb section other → ddb ≡ other }
    ensures ok { (section : List ℕ) (ddb : DataBlock) →
        IsDdb section ddb ↔ (ddb_in section ≡ Ok ddb) }
    ensures kind { (section : List ℕ) →
        IsOfKind data_block section ↔ (ddb_in section ≢ Err TableFault.Kind) }
    ensures short { (section : List ℕ) → ddb_in section ≡ Err TableFault.Short →
        IsOfKind data_block section × ((ddb : DataBlock) → ¬ IsDdb section ddb) }
{
    law_of_fields();
}
