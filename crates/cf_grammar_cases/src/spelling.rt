use cf_ops::{Word1, Word2};
use cf_script::{Expr, Exprs, ScriptFault, Statement, Var, Vars};
use std::{fmt, str};

/// How many calls are spelled inside one another. No statement has more than 64.
const DEEPEST: u8 = 65;

/// What a line comes to: its statement, spelled with one blank behind each word and comma and numbers without leading
/// zeros, or the number of its refusal.
#[derive(Drop)]
pub struct Outcome<'a> {
    parsed: Result<Statement<'a>, ScriptFault>,
}

impl<'a> Outcome<'a> {
    pub fn new(parsed: Result<Statement<'a>, ScriptFault>) -> Outcome<'a> {
        Outcome { parsed }
    }
}

impl fmt::Display for Outcome<'_> {
    fn fmt<W: fmt::Write>(&self, f: &mut fmt::Formatter<W>) -> fmt::Result {
        match &self.parsed {
            Ok(statement) => spell(f, statement),
            Err(ScriptFault::Malformed) => f.write_str("refused 1"),
            Err(ScriptFault::WideNumber) => f.write_str("refused 12"),
            Err(ScriptFault::TooDeep) => f.write_str("refused 13"),
            Err(ScriptFault::NoMemory) => f.write_str("no memory"),
        }
    }
}

fn spell<W: fmt::Write>(f: &mut fmt::Formatter<W>, statement: &Statement) -> fmt::Result {
    match statement {
        Statement::Empty => f.write_str("empty"),
        Statement::Level(level) => write!(f, "level {level}"),
        Statement::Vars(names) => spell_vars(f, names.items()),
        Statement::Let(name, e) => {
            write!(f, "let {} = ", text(name))?;
            spell_expr(f, e, DEEPEST)
        }
        Statement::Load(prefix, file) => write!(f, "load {} {}", text(prefix), text(file)),
        Statement::Value(name, bits) => write!(f, "value {} {}", text(name), text(bits)),
        Statement::First(name, value) => write!(f, "first {} {value}", text(name)),
        Statement::List(name, value, most) => write!(f, "list {} {value} {most}", text(name)),
        Statement::Entry(name, row, column) => write!(f, "entry {} {row} {column}", text(name)),
        Statement::Equal(name, other) => write!(f, "equal {} {}", text(name), text(other)),
        Statement::Size(name) => write!(f, "size {}", text(name)),
        Statement::Stats => f.write_str("stats"),
    }
}

/// The text of a name or of bits, which are ASCII, or of a file's name.
fn text(word: &[u8]) -> &str {
    str::from_utf8(word).unwrap_or("?")
}

fn spell_vars<W: fmt::Write>(f: &mut fmt::Formatter<W>, names: &[&[u8]]) -> fmt::Result {
    f.write_str("var")?;
    for name in names {
        write!(f, " {}", text(name))?;
    }
    Ok(())
}

/// Spells an expression with at most `depth` calls inside one another.
#[cycle(calls)]
fn spell_expr<W: fmt::Write>(f: &mut fmt::Formatter<W>, e: &Expr, depth: u8) -> fmt::Result {
    if depth == 0 {
        return f.write_str("..");
    }
    match e {
        Expr::Num(value) => write!(f, "{value}"),
        Expr::At(position) => write!(f, "@{position}"),
        Expr::Named(name) => f.write_str(text(name)),
        Expr::Const(level, value) => write!(f, "const({level}, {value})"),
        Expr::One(word, e) => spell_one(f, word1(*word), e, depth - 1),
        Expr::Fold(word, es) => spell_list(f, word2(*word), es, depth - 1),
        Expr::Ite(es) => spell_list(f, "ite", es, depth - 1),
        Expr::Restrict(e, var, bit) => {
            begin_call(f, "restrict", e, depth - 1)?;
            spell_var(f, var)?;
            write!(f, ", {})", u8::from(*bit))
        }
        Expr::Exists(e, vars) => spell_over(f, "exists", e, vars, depth - 1),
        Expr::Forall(e, vars) => spell_over(f, "forall", e, vars, depth - 1),
        Expr::SumOut(e, vars) => spell_over(f, "sumout", e, vars, depth - 1),
        Expr::Compose(e, var, g) => {
            begin_call(f, "compose", e, depth - 1)?;
            spell_var(f, var)?;
            end_call(f, g, depth - 1)
        }
        Expr::AndExists(e, g, vars) => {
            begin_call(f, "andexists", e, depth - 1)?;
            f.write_str(", ")?;
            spell_expr(f, g, depth - 1)?;
            spell_rest(f, vars)
        }
        Expr::Kron(e, g) => spell_two(f, "kron", e, g, depth - 1),
        Expr::Matmul(e, g) => spell_two(f, "matmul", e, g, depth - 1),
        Expr::Transpose(e) => spell_one(f, "transpose", e, depth - 1),
        Expr::Id(level) => write!(f, "id({level})"),
        Expr::Walsh(level) => write!(f, "walsh({level})"),
        Expr::Unit(level, row, column) => write!(f, "unit({level}, {row}, {column})"),
    }
}

/// Spells a call of a word with one expression.
#[cycle(calls)]
fn spell_one<W: fmt::Write>(
    f: &mut fmt::Formatter<W>,
    word: &str,
    e: &Expr,
    depth: u8,
) -> fmt::Result {
    begin_call(f, word, e, depth)?;
    f.write_str(")")
}

/// Spells a call of a word with two expressions.
#[cycle(calls)]
fn spell_two<W: fmt::Write>(
    f: &mut fmt::Formatter<W>,
    word: &str,
    e: &Expr,
    g: &Expr,
    depth: u8,
) -> fmt::Result {
    begin_call(f, word, e, depth)?;
    end_call(f, g, depth)
}

/// Spells a call's word and its first argument.
#[cycle(calls)]
fn begin_call<W: fmt::Write>(
    f: &mut fmt::Formatter<W>,
    word: &str,
    e: &Expr,
    depth: u8,
) -> fmt::Result {
    write!(f, "{word}(")?;
    spell_expr(f, e, depth)
}

/// Spells a call's last argument.
#[cycle(calls)]
fn end_call<W: fmt::Write>(f: &mut fmt::Formatter<W>, e: &Expr, depth: u8) -> fmt::Result {
    f.write_str(", ")?;
    spell_expr(f, e, depth)?;
    f.write_str(")")
}

/// Spells a call of a word with an expression and variables.
#[cycle(calls)]
fn spell_over<W: fmt::Write>(
    f: &mut fmt::Formatter<W>,
    word: &str,
    e: &Expr,
    vars: &Vars,
    depth: u8,
) -> fmt::Result {
    begin_call(f, word, e, depth)?;
    spell_rest(f, vars)
}

/// Spells variables, the last arguments of a call.
fn spell_rest<W: fmt::Write>(f: &mut fmt::Formatter<W>, vars: &Vars) -> fmt::Result {
    for var in vars.items() {
        spell_var(f, var)?;
    }
    f.write_str(")")
}

/// Spells a variable behind another argument.
fn spell_var<W: fmt::Write>(f: &mut fmt::Formatter<W>, var: &Var) -> fmt::Result {
    match var {
        Var::At(position) => write!(f, ", @{position}"),
        Var::Named(name) => write!(f, ", {}", text(name)),
    }
}

/// Spells a call of a word with a list of arguments.
#[cycle(calls)]
fn spell_list<W: fmt::Write>(
    f: &mut fmt::Formatter<W>,
    word: &str,
    es: &Exprs,
    depth: u8,
) -> fmt::Result {
    write!(f, "{word}(")?;
    for (i, e) in es.items().iter().enumerate() {
        if i > 0 {
            f.write_str(", ")?;
        }
        spell_expr(f, e, depth)?;
    }
    f.write_str(")")
}

fn word1(word: Word1) -> &'static str {
    match word {
        Word1::Not => "not",
        Word1::Neg => "neg",
    }
}

fn word2(word: Word2) -> &'static str {
    match word {
        Word2::And => "and",
        Word2::Or => "or",
        Word2::Xor => "xor",
        Word2::Plus => "plus",
        Word2::Minus => "minus",
        Word2::Times => "times",
        Word2::Min => "min",
        Word2::Max => "max",
        Word2::Eq => "eq",
        Word2::Lt => "lt",
    }
}
