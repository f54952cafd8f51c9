//! What the levels of statements are.

ghost use Rattle.std.specs.Prelude.{◌≡◌, List};
ghost use Rattle.es_expressions.specs.Trees.{depth, deepest};
ghost use Rattle.es_expressions.specs.declared.lexemes.Lexeme.{Lexeme};
ghost use Rattle.es_reader.specs.Statements.{Statement, Statements};
ghost use Rattle.es_reader.specs.Grammar.{Setting, IsStatement, AreStatements};
ghost use Rattle.es_reader.specs.Meaning.{statement_tree, statement_trees};
ghost use Rattle.es_reader.specs.Levels.{levels, all_levels};

/// A statement has as many levels as its tree is deep, and statements as many as the deepest of
/// their trees.
pub fn law_of_levels()
    ensures statement { (place : Setting) (statement : Statement) (rest : List Lexeme)
        → IsStatement place statement rest
        → levels statement ≡ depth (statement_tree statement) }
    ensures all { (place : Setting) (statements : Statements) (rest : List Lexeme)
        → AreStatements place statements rest
        → all_levels statements ≡ deepest (statement_trees statements) }
{}
