//! What the statements of a program lead to.

ghost use Rattle.std.specs.Prelude.{ℕ, List};
ghost use Rattle.es_reader.specs.Statements.{Item};
ghost use Rattle.es_reader.specs.Programs.{ToldProgram, Tells};
ghost use Rattle.es_reader.specs.Locals.{LeadsDown};
ghost use Rattle.es_reader.specs.Walks.{IsStatement, Leads, StandsBehindChildren};

/// Each node that a statement of a program leads to is one of the program's nodes, and stands
/// behind its children: a child's number is below its parent's. So it leads down to it.
pub fn law_of_walks()
    ensures behind { (items : List Item) (told : ToldProgram) (start : ℕ) (places : List ℕ)
        (number : ℕ) → Tells items told → IsStatement told start
        → Leads told.rows start places number → StandsBehindChildren told.rows number }
    ensures down { (items : List Item) (told : ToldProgram) (start : ℕ) (places : List ℕ)
        (number : ℕ) → Tells items told → IsStatement told start
        → Leads told.rows start places number → LeadsDown told.rows start places number }
{}
