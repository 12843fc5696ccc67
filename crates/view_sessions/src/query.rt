//! The parameters of a target.

ghost use Rattle.std.specs.Prelude.{◌≡◌, ◌==◌, ◌≤◌, Ok, is_some, option_map};
ghost use Rattle.std.specs.List.{position};
ghost use Rattle.wf_value.specs.Gives.{Gives};
ghost use Rattle.definitions.specs.SmallText.{number_of};
ghost use Rattle.view_sessions.specs.Queries.{cursor_in, first_run, given, index_in, is_after, is_first, is_of_form, limit_in, no_query, number_in, part_added, query_of, text_added, value_added, wait_in, with_folded_group, with_value};
ghost use Rattle.view_sessions.specs.Values.{after_byte, before_byte, folded_text, is_conclusion, is_status, limit_of, small_number};

use crate::cursor::Cursor;
use crate::fault::ViewFault;
use crate::parameter::Parameter;
use crate::path::Path;
use crate::value_text::{decoded, folded_text};
use run_plan::Number;
use std::alloc::Global;
use wf_value::{Chars, Refusal};

/// The most rows of a page.
const MAX_LIMIT: usize = 100;

/// The greatest index of a job.
const MAX_JOB: u32 = 255;

/// The longest wait for changes, in seconds.
const MAX_WAIT: u32 = 60;

/// The values of the parameters of a target.
#[derive(Drop)]
pub(crate) struct Query {
    pub status: Option<Chars>,
    pub conclusion: Option<Chars>,
    pub repository: Option<Chars>,
    pub path: Option<Chars>,
    pub event: Option<Chars>,
    pub reference: Option<Chars>,
    pub group: Option<Chars>,
    pub before: Option<Chars>,
    pub limit: Option<Chars>,
    pub from: Option<Chars>,
    pub name: Option<Chars>,
    pub after: Option<Chars>,
    pub wait: Option<Chars>,
}

/// No parameters.
pub(crate) fn no_query() -> Query
    ensures { result ≡ no_query }
{
    Query {
        status: None,
        conclusion: None,
        repository: None,
        path: None,
        event: None,
        reference: None,
        group: None,
        before: None,
        limit: None,
        from: None,
        name: None,
        after: None,
        wait: None,
    }
}

// ---- values

fn place_of(bytes: &[u8], byte: u8) -> Option<usize>
    ensures { result ≡ position (λ b. b == byte) bytes.now }
{
    bytes.iter().position(|b| *b == byte)
}

/// The bytes before the first of this byte, or all.
pub(crate) fn before_byte(bytes: &[u8], byte: u8) -> &[u8]
    ensures { result.now ≡ before_byte byte bytes.now }
{
    match place_of(bytes, byte) {
        Some(offset) => &bytes[..offset],
        None => bytes,
    }
}

/// The bytes after the first of this byte, if there is one.
pub(crate) fn after_byte(bytes: &[u8], byte: u8) -> Option<&[u8]>
    ensures { option_map (λ rest. rest.now) result ≡ after_byte byte bytes.now }
{
    match place_of(bytes, byte) {
        Some(offset) => Some(&bytes[offset + 1..]),
        None => None,
    }
}

/// The name of a group without its case, if one is given.
fn folded_group(alloc: Global, name: &Option<Chars>) -> Result<Option<Chars>, Refusal>
    ensures { Gives (λ text. text) result (Ok (option_map folded_text name.now)) }
{
    match name {
        Some(name) => Ok(Some(folded_text(alloc, name.as_str())?)),
        None => Ok(None),
    }
}

/// A number from 0 to `most`, without leading zeros.
fn small_number(text: &str, most: u32) -> Option<u32>
    ensures { result ≡ small_number most text.now }
{
    if text == "0" {
        return Some(0);
    }
    let number = Number::of(text.as_bytes())?.get();
    if number <= most { Some(number) } else { None }
}

fn limit_of(text: &str) -> Option<usize>
    ensures { result ≡ limit_of text.now }
{
    let limit = Number::of(text.as_bytes())?.get() as usize;
    if limit <= MAX_LIMIT {
        Some(limit)
    } else {
        None
    }
}

fn is_status(text: &str) -> bool
    ensures { result ≡ is_status text.now }
{
    text == "pending" || text == "queued" || text == "in_progress" || text == "completed"
}

fn is_conclusion(text: &str) -> bool
    ensures { result ≡ is_conclusion text.now }
{
    text == "success" || text == "failure" || text == "cancelled"
}

fn is_number(text: &str) -> bool
    ensures { result ≡ is_some (number_of text.now) }
{
    Number::of(text.as_bytes()).is_some()
}

/// Whether a text is of the form of `from` with this path.
fn is_first(path: &Path, text: &str) -> bool
    ensures { result ≡ is_first path.now text.now }
{
    match path {
        Path::Run(_) => small_number(text, MAX_JOB).is_some(),
        _ => is_number(text),
    }
}

/// Whether a text is of the form of `after` with this path.
fn is_after(path: &Path, text: &str) -> bool
    ensures { result ≡ is_after path.now text.now }
{
    match path {
        Path::Changes => Cursor::of(text).is_some(),
        _ => true,
    }
}

/// Whether a value has the form that its parameter has with this path.
fn is_of_form(path: &Path, parameter: Parameter, text: &str) -> bool
    ensures { result ≡ is_of_form path.now parameter text.now }
{
    match parameter {
        Parameter::Status => is_status(text),
        Parameter::Conclusion => is_conclusion(text),
        Parameter::Before => is_number(text),
        Parameter::Limit => limit_of(text).is_some(),
        Parameter::Wait => small_number(text, MAX_WAIT).is_some(),
        Parameter::From => is_first(path, text),
        Parameter::After => is_after(path, text),
        Parameter::Repository | Parameter::Path | Parameter::Event => true,
        Parameter::Reference | Parameter::Group | Parameter::Name => true,
    }
}

// ---- a query

impl Query {
    /// The value of a parameter, if it is given.
    fn field(&self, parameter: Parameter) -> &Option<Chars>
        ensures { result.now ≡ given self.now parameter }
    {
        match parameter {
            Parameter::Status => &self.status,
            Parameter::Conclusion => &self.conclusion,
            Parameter::Repository => &self.repository,
            Parameter::Path => &self.path,
            Parameter::Event => &self.event,
            Parameter::Reference => &self.reference,
            Parameter::Group => &self.group,
            Parameter::Before => &self.before,
            Parameter::Limit => &self.limit,
            Parameter::From => &self.from,
            Parameter::Name => &self.name,
            Parameter::After => &self.after,
            Parameter::Wait => &self.wait,
        }
    }

    /// Gives a parameter this value.
    fn set(&mut self, parameter: Parameter, value: Chars)
        ensures { self.new ≡ with_value parameter value self.old }
    {
        let value = Some(value);
        match parameter {
            Parameter::Status => self.status = value,
            Parameter::Conclusion => self.conclusion = value,
            Parameter::Repository => self.repository = value,
            Parameter::Path => self.path = value,
            Parameter::Event => self.event = value,
            Parameter::Reference => self.reference = value,
            Parameter::Group => self.group = value,
            Parameter::Before => self.before = value,
            Parameter::Limit => self.limit = value,
            Parameter::From => self.from = value,
            Parameter::Name => self.name = value,
            Parameter::After => self.after = value,
            Parameter::Wait => self.wait = value,
        }
    }

    /// Adds a parameter with its value, or says what is wrong with it.
    fn with_decoded(
        mut self,
        path: &Path,
        parameter: Parameter,
        value: Chars,
    ) -> Result<Query, ViewFault>
        ensures { result ≡ value_added path.now parameter self value }
    {
        if self.field(parameter).is_some() || !is_of_form(path, parameter, value.as_str()) {
            return Err(ViewFault::BadParameter);
        }
        self.set(parameter, value);
        Ok(self)
    }

    /// Adds a parameter of the path with what follows its name, or says what is wrong with it.
    fn with_value(
        self,
        alloc: Global,
        path: &Path,
        parameter: Parameter,
        value: Option<&[u8]>,
    ) -> Result<Result<Query, ViewFault>, Refusal>
        ensures { Gives (λ r. r) result (Ok (text_added path.now parameter self (option_map (λ v. v.now) value.entry))) }
    {
        let Some(value) = value else {
            return Ok(Err(ViewFault::BadParameter));
        };
        match decoded(alloc, value)? {
            Some(value) => Ok(self.with_decoded(path, parameter, value)),
            None => Ok(Err(ViewFault::BadParameter)),
        }
    }

    /// Adds the parameter of a part `NAME=VALUE`, or says what is wrong with it.
    fn with_part(
        self,
        alloc: Global,
        path: &Path,
        part: &[u8],
    ) -> Result<Result<Query, ViewFault>, Refusal>
        ensures { Gives (λ r. r) result (Ok (part_added path.now self part.now)) }
    {
        let Some(parameter) = Parameter::named(before_byte(part, b'=')) else {
            return Ok(Err(ViewFault::UnknownParameter));
        };
        if !parameter.is_of(path) {
            return Ok(Err(ViewFault::UnknownParameter));
        }
        self.with_value(alloc, path, parameter, after_byte(part, b'='))
    }

    /// The same with the name of the group without its case.
    pub(crate) fn with_folded_group(mut self, alloc: Global) -> Result<Query, Refusal>
        ensures { Gives (λ q. q) result (Ok (with_folded_group self)) }
    {
        let group = folded_group(alloc, &self.group)?;
        self.group = group;
        Ok(self)
    }

    /// The run with whose id a page begins: the first, where it is left out.
    pub(crate) fn first_run(&self) -> Number
        ensures { result ≡ first_run self.now }
    {
        match self.number_at(Parameter::From) {
            Some(run) => run,
            None => Number::new(1),
        }
    }

    /// The id of a run that a parameter gives.
    pub(crate) fn number_at(&self, parameter: Parameter) -> Option<Number>
        ensures { result ≡ number_in self.now parameter }
    {
        match self.field(parameter) {
            Some(text) => Number::of(text.as_str().as_bytes()),
            None => None,
        }
    }

    /// The index of a job, 0 where it is left out.
    pub(crate) fn index(&self) -> usize
        ensures { result ≡ index_in self.now }
    {
        match &self.from {
            Some(text) => small_number(text.as_str(), MAX_JOB).unwrap_or(0) as usize,
            None => 0,
        }
    }

    /// The most rows of a page, 100 where it is left out.
    pub(crate) fn limit(&self) -> usize
        ensures value { result ≡ limit_in self.now }
        ensures most { result ≤ 100 }
    {
        match &self.limit {
            Some(text) => limit_of(text.as_str()).unwrap_or(MAX_LIMIT),
            None => MAX_LIMIT,
        }
    }

    /// How many seconds to wait, 0 where it is left out.
    pub(crate) fn wait(&self) -> u64
        ensures value { result ≡ wait_in self.now }
    {
        match &self.wait {
            Some(text) => u64::from(small_number(text.as_str(), MAX_WAIT).unwrap_or(0)),
            None => 0,
        }
    }

    pub(crate) fn cursor(&self) -> Option<Cursor>
        ensures { result ≡ cursor_in self.now }
    {
        match &self.after {
            Some(text) => Cursor::of(text.as_str()),
            None => None,
        }
    }
}

/// Whether a byte is the `&` between two parameters.
fn is_ampersand(byte: &u8) -> bool
    ensures { result ≡ (byte.now == 38) }
{
    *byte == b'&'
}

/// A query of these parameters of a path, or the fault of the first that has one.
pub(crate) fn query_of(
    alloc: Global,
    path: &Path,
    text: &[u8],
) -> Result<Result<Query, ViewFault>, Refusal>
    ensures { Gives (λ r. r) result (Ok (query_of path.now text.now)) }
{
    let mut query = no_query();
    if text.is_empty() {
        return Ok(Ok(query));
    }
    for part in text.split(is_ampersand) {
        match query.with_part(alloc, path, part)? {
            Ok(more) => query = more,
            Err(fault) => return Ok(Err(fault)),
        }
    }
    Ok(Ok(query))
}
