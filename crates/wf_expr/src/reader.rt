ghost use Rattle.std.specs.Prelude.{◌≡◌, ◌++◌, [], ◌∷◌, if◌then◌else◌};
ghost use Rattle.std.specs.Char.{encode_utf8};
ghost use Rattle.std.specs.Str.{chars};
ghost use Rattle.wf_value.specs.Gives.{Gives};
ghost use Rattle.wf_expr.specs.Grammar.{begins_name};
ghost use Rattle.wf_expr.specs.inner.Parsing.{needed, taken, ended, plain_piece, in_text, after_name, after_operand, run, pieces_of};

use crate::letters::{begins_name, continues_name};
use crate::piece::{Operand, Piece};
use std::alloc::Global;
use wf_value::{Chars, Code, Refusal, Sequence};

/// The state of a template parser: the pieces so far and, of the current piece, its operands, the names of the current reference
/// and the current word, as far as they are read.
#[derive(Drop)]
pub(crate) enum Reader {
    /// In plain text.
    InText(Sequence<Piece>, Chars),
    /// After a `$` that may begin a piece.
    AfterDollar(Sequence<Piece>, Chars),
    /// After a `${` that may begin a piece.
    AfterBrace(Sequence<Piece>, Chars),
    /// Before an operand.
    OperandDue(Sequence<Piece>, Sequence<Operand>),
    InName(Sequence<Piece>, Sequence<Operand>, Sequence<Chars>, Chars),
    AfterName(Sequence<Piece>, Sequence<Operand>, Sequence<Chars>),
    /// After a dot.
    NameDue(Sequence<Piece>, Sequence<Operand>, Sequence<Chars>),
    InQuoted(Sequence<Piece>, Sequence<Operand>, Chars),
    /// After a quote, which ends the text or is the first of a doubled quote.
    AfterQuote(Sequence<Piece>, Sequence<Operand>, Chars),
    AfterOperand(Sequence<Piece>, Sequence<Operand>),
    /// After the first `|` of two.
    AfterBar(Sequence<Piece>, Sequence<Operand>),
    /// After the first `}` of two.
    AfterClose(Sequence<Piece>, Sequence<Operand>),
}

fn with_char(word: Chars, c: char) -> Result<Chars, Refusal>
    ensures { Gives (λ w. w) result (Ok (word ++ encode_utf8 c)) }
{
    let mut text = word.into_string();
    text.push(c)?;
    Ok(Chars::new(text))
}

fn with_text(word: Chars, more: &str) -> Result<Chars, Refusal>
    ensures { Gives (λ w. w) result (Ok (word ++ more.now)) }
{
    let mut text = word.into_string();
    text.push_str(more)?;
    Ok(Chars::new(text))
}

/// Appends an item. A list of one item takes memory for exactly one.
fn with<T: Drop>(list: Sequence<T>, item: T) -> Result<Sequence<T>, Refusal>
    ensures { Gives (λ l. l) result (Ok (list ++ item ∷ [])) }
{
    let mut items = list.into_vec();
    if items.is_empty() {
        items.reserve_exact(1)?;
    }
    items.push(item)?;
    Ok(Sequence::new(items))
}

fn none<T>(alloc: Global) -> Sequence<T>
    ensures { result ≡ [] }
{
    Sequence::new(Vec::new(alloc))
}

fn empty(alloc: Global) -> Chars
    ensures { result ≡ [] }
{
    Chars::new(String::new(alloc))
}

/// 17: no template continues this way.
fn fault<T>() -> Result<T, Refusal>
    ensures { result ≡ Err (Refusal.Numbered Code.Expression) }
{
    Err(Refusal::Numbered(Code::Expression))
}

impl Reader {
    /// Reads one more character; 17 if no template continues this way.
    pub(crate) fn take(self, alloc: Global, c: char) -> Result<Reader, Refusal>
        ensures { Gives (λ r. r) result (needed (taken self c)) }
    {
        match self {
            Reader::InText(pieces, word) => in_text(pieces, word, c),
            Reader::AfterDollar(pieces, word) => after_dollar(pieces, word, c),
            Reader::AfterBrace(pieces, word) => after_brace(alloc, pieces, word, c),
            Reader::OperandDue(pieces, operands) => operand_due(alloc, pieces, operands, c),
            Reader::NameDue(pieces, operands, names) => name_due(alloc, pieces, operands, names, c),
            Reader::InName(pieces, operands, names, word) => in_name(
                pieces, operands, names, word, c,
            ),
            Reader::AfterName(pieces, operands, names) => after_name(pieces, operands, names, c),
            Reader::InQuoted(pieces, operands, word) => in_quoted(pieces, operands, word, c),
            Reader::AfterQuote(pieces, operands, word) => after_quote(pieces, operands, word, c),
            Reader::AfterOperand(pieces, operands) => after_operand(pieces, operands, c),
            Reader::AfterBar(pieces, operands) => match c {
                '|' => Ok(Reader::OperandDue(pieces, operands)),
                _ => fault(),
            },
            Reader::AfterClose(pieces, operands) => after_close(alloc, pieces, operands, c),
        }
    }

    /// Ends the text and gives the template; 17 inside a piece `${{ .. }}`.
    pub(crate) fn end(self) -> Result<Sequence<Piece>, Refusal>
        ensures { Gives (λ t. t) result (needed (ended self)) }
    {
        match self {
            Reader::InText(pieces, word) => with_plain(pieces, word),
            Reader::AfterDollar(pieces, word) => with_plain(pieces, with_text(word, "$")?),
            Reader::AfterBrace(pieces, word) => with_plain(pieces, with_text(word, "${")?),
            _ => fault(),
        }
    }
}

/// Appends the word as a plain piece unless it is empty.
fn with_plain(pieces: Sequence<Piece>, word: Chars) -> Result<Sequence<Piece>, Refusal>
    ensures { Gives (λ t. t) result (Ok (pieces ++ plain_piece word)) }
{
    if word.as_str().is_empty() {
        Ok(pieces)
    } else {
        with(pieces, Piece::Plain(word))
    }
}

fn in_text(pieces: Sequence<Piece>, word: Chars, c: char) -> Result<Reader, Refusal>
    ensures { Gives (λ r. r) result (Ok (in_text pieces word c)) }
{
    match c {
        '$' => Ok(Reader::AfterDollar(pieces, word)),
        _ => Ok(Reader::InText(pieces, with_char(word, c)?)),
    }
}

fn after_dollar(pieces: Sequence<Piece>, word: Chars, c: char) -> Result<Reader, Refusal>
    ensures { Gives (λ r. r) result (needed (taken (Reader.AfterDollar pieces word) c)) }
{
    match c {
        '{' => Ok(Reader::AfterBrace(pieces, word)),
        _ => in_text(pieces, with_text(word, "$")?, c),
    }
}

fn after_brace(
    alloc: Global,
    pieces: Sequence<Piece>,
    word: Chars,
    c: char,
) -> Result<Reader, Refusal>
    ensures { Gives (λ r. r) result (needed (taken (Reader.AfterBrace pieces word) c)) }
{
    match c {
        '{' => Ok(Reader::OperandDue(with_plain(pieces, word)?, none(alloc))),
        _ => in_text(pieces, with_text(word, "${")?, c),
    }
}

fn operand_due(
    alloc: Global,
    pieces: Sequence<Piece>,
    operands: Sequence<Operand>,
    c: char,
) -> Result<Reader, Refusal>
    ensures { Gives (λ r. r) result (needed (taken (Reader.OperandDue pieces operands) c)) }
{
    match c {
        ' ' => Ok(Reader::OperandDue(pieces, operands)),
        '\'' => Ok(Reader::InQuoted(pieces, operands, empty(alloc))),
        _ => name_from(alloc, pieces, operands, none(alloc), c),
    }
}

/// Starts a name.
fn name_from(
    alloc: Global,
    pieces: Sequence<Piece>,
    operands: Sequence<Operand>,
    names: Sequence<Chars>,
    c: char,
) -> Result<Reader, Refusal>
    ensures { Gives (λ r. r) result (needed (if begins_name c then Some (Reader.InName pieces operands names (encode_utf8 c)) else None)) }
{
    if !begins_name(c) {
        return fault();
    }
    let word = with_char(empty(alloc), c)?;
    Ok(Reader::InName(pieces, operands, names, word))
}

fn name_due(
    alloc: Global,
    pieces: Sequence<Piece>,
    operands: Sequence<Operand>,
    names: Sequence<Chars>,
    c: char,
) -> Result<Reader, Refusal>
    ensures { Gives (λ r. r) result (needed (taken (Reader.NameDue pieces operands names) c)) }
{
    match c {
        ' ' => Ok(Reader::NameDue(pieces, operands, names)),
        _ => name_from(alloc, pieces, operands, names, c),
    }
}

fn in_name(
    pieces: Sequence<Piece>,
    operands: Sequence<Operand>,
    names: Sequence<Chars>,
    word: Chars,
    c: char,
) -> Result<Reader, Refusal>
    ensures { Gives (λ r. r) result (needed (taken (Reader.InName pieces operands names word) c)) }
{
    if continues_name(c) {
        let word = with_char(word, c)?;
        return Ok(Reader::InName(pieces, operands, names, word));
    }
    after_name(pieces, operands, with(names, word)?, c)
}

fn after_name(
    pieces: Sequence<Piece>,
    operands: Sequence<Operand>,
    names: Sequence<Chars>,
    c: char,
) -> Result<Reader, Refusal>
    ensures { Gives (λ r. r) result (needed (after_name pieces operands names c)) }
{
    match c {
        ' ' => Ok(Reader::AfterName(pieces, operands, names)),
        '.' => Ok(Reader::NameDue(pieces, operands, names)),
        _ => after_operand(pieces, with(operands, Operand::Reference(names))?, c),
    }
}

fn in_quoted(
    pieces: Sequence<Piece>,
    operands: Sequence<Operand>,
    word: Chars,
    c: char,
) -> Result<Reader, Refusal>
    ensures { Gives (λ r. r) result (needed (taken (Reader.InQuoted pieces operands word) c)) }
{
    match c {
        '\'' => Ok(Reader::AfterQuote(pieces, operands, word)),
        _ => Ok(Reader::InQuoted(pieces, operands, with_char(word, c)?)),
    }
}

fn after_quote(
    pieces: Sequence<Piece>,
    operands: Sequence<Operand>,
    word: Chars,
    c: char,
) -> Result<Reader, Refusal>
    ensures { Gives (λ r. r) result (needed (taken (Reader.AfterQuote pieces operands word) c)) }
{
    match c {
        '\'' => Ok(Reader::InQuoted(pieces, operands, with_char(word, c)?)),
        _ => after_operand(pieces, with(operands, Operand::Quoted(word))?, c),
    }
}

fn after_operand(
    pieces: Sequence<Piece>,
    operands: Sequence<Operand>,
    c: char,
) -> Result<Reader, Refusal>
    ensures { Gives (λ r. r) result (needed (after_operand pieces operands c)) }
{
    match c {
        ' ' => Ok(Reader::AfterOperand(pieces, operands)),
        '|' => Ok(Reader::AfterBar(pieces, operands)),
        '}' => Ok(Reader::AfterClose(pieces, operands)),
        _ => fault(),
    }
}

fn after_close(
    alloc: Global,
    pieces: Sequence<Piece>,
    operands: Sequence<Operand>,
    c: char,
) -> Result<Reader, Refusal>
    ensures { Gives (λ r. r) result (needed (taken (Reader.AfterClose pieces operands) c)) }
{
    match c {
        '}' => {
            let pieces = with(pieces, Piece::Braced(operands))?;
            Ok(Reader::InText(pieces, empty(alloc)))
        }
        _ => fault(),
    }
}

/// The template of plain text: one piece, or none if the text is empty.
fn plain(alloc: Global, text: &str) -> Result<Sequence<Piece>, Refusal>
    ensures { Gives (λ t. t) result (Ok (plain_piece text.now)) }
{
    with_plain(none(alloc), Chars::from_str(alloc, text)?)
}

/// Parses the rest of the text from a state; 17 if it is not a template.
fn read_on(alloc: Global, start: Reader, rest: &str) -> Result<Sequence<Piece>, Refusal>
    ensures { Gives (λ t. t) result (needed (run start (chars rest.now))) }
{
    let mut reader = start;
    for c in rest.chars() {
        reader = reader.take(alloc, c)?;
    }
    reader.end()
}

/// Parses a text into its pieces; 17 if it is not a template. The text before the first `${{` is copied as a whole.
pub(crate) fn read(alloc: Global, text: &str) -> Result<Sequence<Piece>, Refusal>
    ensures { Gives (λ t. t) result (needed (pieces_of text.now)) }
{
    match text.split_once("${{") {
        None => plain(alloc, text),
        Some((prefix, rest)) => {
            let pieces = plain(alloc, prefix)?;
            read_on(alloc, Reader::OperandDue(pieces, none(alloc)), rest)
        }
    }
}
