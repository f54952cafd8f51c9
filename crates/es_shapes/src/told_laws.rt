//! What is told of programs stands for them. Each function is a law: its contract is what it is
//! for, and it does nothing when it runs.

ghost use Rattle.std.specs.Prelude.{◌≡◌, ℕ, List, Some, map, slice_get};
ghost use Rattle.std.specs.List.{AllZip};
ghost use Rattle.es_expressions.specs.declared.lexemes.Lexeme.{Lexeme};
ghost use Rattle.es_expressions.specs.Grammar.{IsExpression};
ghost use Rattle.es_expressions.specs.Meaning.{parts_of, tree_of as tree_of_phrase};
ghost use Rattle.es_expressions.specs.Phrases.{Phrase};
ghost use Rattle.es_expressions.specs.Nodes.{IsTreeAt, NodeRow};
ghost use Rattle.es_expressions.specs.Trees.{Tree, Trees};
ghost use Rattle.es_reader.specs.Grammar.{IsProgram};
ghost use Rattle.es_reader.specs.Programs.{AreTreesOf, Tells, ToldFunction, ToldProgram};
ghost use Rattle.es_reader.specs.Statements.{Item};
ghost use Rattle.es_shapes.specs.declared.codes.Listing.TheVariants.{Body, Top};
ghost use Rattle.es_shapes.specs.Codes.{function_at, program_at, tree_at, trees_at};
ghost use Rattle.es_shapes.specs.devices.Parts.{statements_from};
ghost use Rattle.es_shapes.specs.Meanings.{Means, MeansProgram};
ghost use Rattle.es_shapes.specs.Sources.{expression_of, expressions_of, program_of};

/// Of a program that was read, what is evaluated by the numbers of nodes is the program of its
/// text.
pub fn law_of_told_programs()
    ensures tree { (tree : Tree) (rows : List NodeRow) (number : ℕ) → IsTreeAt tree rows number
        → tree_at rows number ≡ tree }
    ensures trees { (trees : Trees) (rows : List NodeRow) (numbers : List ℕ)
        → AreTreesOf trees rows numbers → trees_at rows numbers ≡ trees }
    ensures program { (items : List Item) (told : ToldProgram) → Tells items told
        → program_at told ≡ program_of items }
    ensures programs { (sources : List (List Item)) (programs : List ToldProgram)
        → AllZip Tells sources programs → map program_at programs ≡ map program_of sources }
    ensures top { (programs : List ToldProgram) (program : ℕ) (told : ToldProgram)
        → slice_get programs program ≡ Some told
        → statements_from programs (Top program) 0 ≡ (program_at told).body }
    ensures body { (programs : List ToldProgram) (program function : ℕ) (told : ToldProgram)
        (found : ToldFunction) → slice_get programs program ≡ Some told
        → slice_get told.functions function ≡ Some found
        → statements_from programs (Body program function) 0
        ≡ (function_at told.rows found).body }
{}

/// A program by the grammar is evaluated as its phrases mean, each of whose tokens is one that is
/// named there: where the trees of a text are read, nothing is taken for want of a better case.
pub fn law_of_sources()
    ensures expressions { (phrase : Phrase) → IsExpression phrase → Means phrase (record {
      expression = expression_of (tree_of_phrase phrase);
      parts = expressions_of (parts_of phrase);
    }) }
    ensures programs { (tokens : List Lexeme) (items : List Item) → IsProgram tokens items
        → MeansProgram items (program_of items) }
{}
