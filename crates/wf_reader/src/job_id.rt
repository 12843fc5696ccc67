ghost use Rattle.std.specs.Prelude.{◌≡◌};
ghost use Rattle.std.specs.List.{list_all};
ghost use Rattle.wf_reader.specs.Job.{is_id_part, is_id_start, is_job_id};

/// The maximum length of a job id, in bytes.
pub const MAX_ID: usize = 100;

fn is_start(byte: u8) -> bool
    ensures { result ≡ is_id_start byte }
{
    byte.is_ascii_alphabetic() || byte == b'_'
}

fn is_part(byte: u8) -> bool
    ensures { result ≡ is_id_part byte }
{
    is_start(byte) || byte.is_ascii_digit() || byte == b'-'
}

fn are_parts(bytes: &[u8]) -> bool
    ensures { result ≡ list_all is_id_part bytes.now }
{
    bytes.iter().all(|byte| is_part(*byte))
}

/// Whether a text is a valid job id.
pub fn is_job_id(text: &str) -> bool
    ensures { result ≡ is_job_id text.now }
{
    match text.as_bytes() {
        [] => false,
        [first, rest @ ..] => is_start(*first) && are_parts(rest) && text.len() <= MAX_ID,
    }
}
