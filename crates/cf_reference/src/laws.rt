//! The main laws of the grammar, each on the contract of a function that does nothing.

ghost use Rattle.cf_reference.specs.Grammar.{LinesSpellOneStatement};
ghost use Rattle.cf_reference.specs.LineRefusals.{LinesParseOnce, LinesSpellFormedStatements};
ghost use Rattle.cf_reference.specs.Parsing.{LinesParse};

/// A line spells at most one statement.
pub fn lines_spell_one_statement()
    ensures { LinesSpellOneStatement }
{}

/// A line comes to at most one refusal or statement.
pub fn lines_parse_once()
    ensures { LinesParseOnce }
{}

/// What a line spells without a refusal is formed.
pub fn lines_spell_formed_statements()
    ensures { LinesSpellFormedStatements }
{}

/// What is worked out from a line is what it comes to.
pub fn lines_parse()
    ensures { LinesParse }
{}
