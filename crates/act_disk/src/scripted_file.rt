ghost use Rattle.std.specs.Prelude.{◌≡◌, ◌≤◌, ◌<◌, [], IsTrue, length, take, drop, IfOk, IfErr, OnOk};
ghost use Rattle.act_disk.specs.Laid.{laid};
ghost use Rattle.act_disk.specs.SystemCalls.{is_sound, contents, IsHonest};

use crate::call_log::CallLog;
use crate::memory::lay;
use crate::system_file::{CallError, SystemFile};
use std::alloc::Global;
use std::marker::Model;

/// How a call on a scripted file goes.
#[derive(Clone, Copy)]
pub enum ScriptedCall {
    Whole,
    /// At most this many bytes, and at least one. A call that moves no bytes completes.
    Short(usize),
    Interrupted,
    /// A failed write has written the first half of its bytes.
    Failed,
}

/// An in-memory file, initially empty, whose calls follow a script. Calls after the end of the script complete.
///
/// It is honest without an assumption. An extension fails when out of memory.
#[derive(Drop)]
pub struct ScriptedFile {
    bytes: Vec<u8>,
    script: Vec<ScriptedCall>,
    done: usize,
    log: CallLog,
}

impl Model for ScriptedFile {
    ghost use Rattle.std.specs.Prelude.{◌≡◌, ◌<◌, [], List, IsTrue};
    ghost use Rattle.act_disk.specs.SystemCalls.{FileCall, is_sound, contents, IsHonest};

    ghost Value = { List FileCall };

    ghost view = { λ f. f.log.calls };

    ghost invariant = { λ f. IsHonest [] f.log.calls × (IsTrue (is_sound f.log.calls) → f.bytes.items ≡ contents [] f.log.calls) };
}

impl ScriptedFile {
    /// An empty file.
    pub fn new(alloc: Global, script: Vec<ScriptedCall>) -> Self
        ensures { result ≡ [] }
    {
        ScriptedFile {
            bytes: Vec::new(alloc),
            script,
            done: 0,
            log: CallLog::new(),
        }
    }

    /// Its bytes. They are the contents until a write, an extension or a sync fails. The calls are honest.
    pub fn bytes(&self) -> &[u8]
        ensures honest { IsHonest [] self.now }
        ensures contents { IsTrue (is_sound self.now) → result.now ≡ contents [] self.now }
    {
        self.bytes.as_slice()
    }

    /// How many steps of the script were taken.
    pub fn scripted_calls(&self) -> usize {
        self.done
    }
}

/// Takes the next step of a script.
fn next_call(script: &[ScriptedCall], done: &mut usize) -> ScriptedCall {
    match script.get(*done) {
        Some(scripted_call) => {
            *done += 1;
            *scripted_call
        }
        None => ScriptedCall::Whole,
    }
}

/// How many of these bytes a step moves.
fn moved(scripted_call: ScriptedCall, count: usize) -> Result<usize, CallError>
    ensures within { IfOk result (λ moved. moved ≤ count) }
    ensures some { 0 < count → IfOk result (λ moved. 0 < moved) }
{
    match scripted_call {
        ScriptedCall::Whole => Ok(count),
        ScriptedCall::Short(most) => Ok(count.min(most.max(1))),
        ScriptedCall::Interrupted => Err(CallError::Interrupted),
        ScriptedCall::Failed => Err(CallError::Failed),
    }
}

/// Whether a call that moves no bytes completes.
fn is_done(scripted_call: ScriptedCall) -> Result<(), CallError> {
    match scripted_call {
        ScriptedCall::Whole | ScriptedCall::Short(_) => Ok(()),
        ScriptedCall::Interrupted => Err(CallError::Interrupted),
        ScriptedCall::Failed => Err(CallError::Failed),
    }
}

/// Copies bytes of a file from `at` on, as many as the step moves and the file has. It fails at the end of the file.
fn give(
    file: &[u8],
    scripted_call: ScriptedCall,
    at: u64,
    buf: &mut [u8],
) -> Result<usize, CallError>
    requires { 0 < length buf.old }
    ensures count { IfOk result (λ count. (0 < count) × (count ≤ length buf.old)) }
    ensures bytes { IfOk result (λ count. take count buf.new ≡ take count (drop at file.now)) }
{
    let at = at as usize;
    let most = moved(scripted_call, buf.len())?;
    if at >= file.len() {
        return Err(CallError::Failed);
    }
    let count = most.min(file.len() - at);
    buf[..count].copy_from_slice(&file[at..at + count]);
    Ok(count)
}

/// Writes bytes into a file, as many as the step moves.
fn take_in(
    file: &mut Vec<u8>,
    scripted_call: ScriptedCall,
    at: u64,
    bytes: &[u8],
) -> Result<usize, CallError>
    ensures count { IfOk result (λ count. count ≤ length bytes.now) }
    ensures some { 0 < length bytes.now → IfOk result (λ count. 0 < count) }
    ensures laid { IfOk result (λ count. file.new.items ≡ laid at (take count bytes.now) file.old.items) }
    ensures same { IfErr result (λ e. e ≡ CallError.Interrupted → file.new.items ≡ file.old.items) }
{
    match moved(scripted_call, bytes.len()) {
        Ok(count) => match lay(file, at, &bytes[..count]) {
            Ok(()) => Ok(count),
            Err(_) => Err(CallError::Failed),
        },
        Err(CallError::Interrupted) => Err(CallError::Interrupted),
        Err(CallError::Failed) => {
            let _ = lay(file, at, &bytes[..bytes.len() / 2]);
            Err(CallError::Failed)
        }
    }
}

/// Promise (Disks): A scripted file gives honest answers
/// By: `impl SystemFile for act_disk::ScriptedFile`; `act_disk::ScriptedFile::bytes`, `honest`
impl SystemFile for ScriptedFile {
    ghost use Rattle.std.specs.Prelude.{[], refl};

    ghost held = { [] };

    ghost left = { λ c. c ≡ [] };

    ghost calls = { λ f. f };

    ghost held_is_left = { refl };

    fn len(&mut self) -> Result<u64, CallError> {
        let scripted_call = next_call(&self.script, &mut self.done);
        let answer = match is_done(scripted_call) {
            Ok(()) => Ok(self.bytes.len() as u64),
            Err(error) => Err(error),
        };
        self.log.measured(answer);
        answer
    }

    fn read_at(&mut self, at: u64, buf: &mut [u8]) -> Result<usize, CallError> {
        let scripted_call = next_call(&self.script, &mut self.done);
        let answer = give(&self.bytes, scripted_call, at, buf);
        self.log.gave(at, buf, answer);
        answer
    }

    fn write_at(&mut self, at: u64, bytes: &[u8]) -> Result<usize, CallError> {
        let scripted_call = next_call(&self.script, &mut self.done);
        let answer = take_in(&mut self.bytes, scripted_call, at, bytes);
        self.log.wrote(at, bytes, answer);
        answer
    }

    fn set_len(&mut self, len: u64) -> Result<(), CallError> {
        let scripted_call = next_call(&self.script, &mut self.done);
        let answer = extend(&mut self.bytes, scripted_call, len);
        self.log.grew(len, answer);
        answer
    }

    fn sync_data(&mut self) -> Result<(), CallError> {
        let scripted_call = next_call(&self.script, &mut self.done);
        let answer = is_done(scripted_call);
        self.log.synced(answer);
        answer
    }
}

/// Extends a file with zeros, if the step completes.
fn extend(file: &mut Vec<u8>, scripted_call: ScriptedCall, len: u64) -> Result<(), CallError>
    ensures ok { OnOk result (file.new.items ≡ laid len [] file.old.items) }
    ensures same { IfErr result (λ e. e ≡ CallError.Interrupted → file.new.items ≡ file.old.items) }
{
    is_done(scripted_call)?;
    match lay(file, len, &[]) {
        Ok(()) => Ok(()),
        Err(_) => Err(CallError::Failed),
    }
}
