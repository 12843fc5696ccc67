use process_io::ResourceFault;
use std::alloc::AllocError;
use wf_value::{Code, Refusal};

/// Why a command ends with status 1.
#[derive(Drop)]
pub struct Failure<'a> {
    refusal: Refusal,
    /// What of the system is the reason, if that is known.
    fault: Option<ResourceFault<'a>>,
}

impl Failure<'_> {
    /// Prints the refusal on standard error, and then the reason.
    pub(crate) fn print<R: Eprint>(&self, rt: &R) {
        let refusal = &self.refusal;
        let _ = rt.eprintln(format_args!("acts: {refusal}"));
        if let Some(fault) = &self.fault {
            let _ = rt.eprintln(format_args!("acts: {fault}"));
        }
    }

    /// Memory has run out.
    pub fn no_memory() -> Self {
        Failure::from(Refusal::Numbered(Code::NoMemory))
    }
}

/// What a command has ended with. If a stream has failed, the reason is the first of these faults.
pub fn ended<'a, T: Drop>(
    ended: Result<T, Refusal>,
    first: Option<ResourceFault<'a>>,
    second: Option<ResourceFault<'a>>,
) -> Result<T, Failure<'a>> {
    match ended {
        Ok(value) => Ok(value),
        Err(Refusal::Numbered(Code::StreamFailed)) => Err(Failure {
            refusal: Refusal::Numbered(Code::StreamFailed),
            fault: first.or(second),
        }),
        Err(refusal) => Err(Failure::from(refusal)),
    }
}

/// The exit status, once a failure is printed.
pub fn status_of<R: Eprint>(rt: &R, ended: Result<u8, Failure<'_>>) -> u8 {
    match ended {
        Ok(status) => status,
        Err(failure) => {
            failure.print(rt);
            1
        }
    }
}

impl From<Refusal> for Failure<'_> {
    fn from(refusal: Refusal) -> Self {
        Failure {
            refusal,
            fault: None,
        }
    }
}

impl<'a> From<ResourceFault<'a>> for Failure<'a> {
    fn from(fault: ResourceFault<'a>) -> Self {
        Failure {
            refusal: fault.refusal(),
            fault: Some(fault),
        }
    }
}

impl From<AllocError> for Failure<'_> {
    fn from(_error: AllocError) -> Self {
        Failure::no_memory()
    }
}
