use std::alloc::{AllocError, Global};
use std::fmt;

/// The explanation of a refusal.
#[derive(Drop)]
pub struct Explanation {
    number: &'static str,
    /// Why something is refused with this number.
    meaning: &'static str,
    /// An input that is refused with it.
    input: &'static str,
    /// What to do about it.
    remedy: &'static str,
}

/// The refusals of workflows and events.
static OF_WORKFLOWS: [Explanation; 17] = [
    Explanation {
        number: "10",
        meaning: "a body, or a workflow, is not JSON, or not UTF-8",
        input: "the body [",
        remedy: "check the text with a JSON tool: comments and a comma after the last member are not \
            allowed, and lists and objects nest 127 deep at most",
    },
    Explanation {
        number: "11",
        meaning: "a member is of the wrong kind, or one that is required is missing",
        input: "the workflow {}, which has no \"jobs\"",
        remedy: "compare the members with the tables of docs/FORMATS.md; null counts as a kind of its own, so leave out a \
            member that is not wanted",
    },
    Explanation {
        number: "12",
        meaning: "the id of a job is not of the required form",
        input: "the workflow {\"jobs\":{\"1a\":{\"runs-on\":\"x\"}}}",
        remedy: "begin the id with a letter or _, use letters, digits, - and _ alone, and 100 bytes at most",
    },
    Explanation {
        number: "13",
        meaning: "\"needs\" names a job that the workflow does not have",
        input: "the workflow {\"jobs\":{\"a\":{\"runs-on\":\"x\",\"needs\":\"b\"}}}",
        remedy: "name the ids of jobs of the same workflow, letter by letter",
    },
    Explanation {
        number: "14",
        meaning: "jobs need one another in a cycle; the ids of all jobs of such cycles follow the number",
        input: "the workflow {\"jobs\":{\"a\":{\"runs-on\":\"x\",\"needs\":\"a\"}}}",
        remedy: "remove a job from the \"needs\" of one that it waits for",
    },
    Explanation {
        number: "15",
        meaning: "a job has no \"runs-on\", or an empty list there",
        input: "the workflow {\"jobs\":{\"a\":{}}}",
        remedy: "name one label at least, as \"runs-on\":\"linux\"",
    },
    Explanation {
        number: "16",
        meaning: "a workflow has a member, or a kind of job, that is not supported",
        input: "the workflow {\"jobs\":{\"a\":{\"uses\":\"./x.yml\"}}}",
        remedy: "write the job's own steps in place of \"uses\", and labels in place of a runner group",
    },
    Explanation {
        number: "17",
        meaning: "a text holds an expression that is not supported: references joined by || are, functions and comparisons \
            are not",
        input: "the workflow {\"jobs\":{\"a\":{\"runs-on\":\"${{ secrets.x }}\"}}}",
        remedy: "use the contexts github, inputs, vars, needs, strategy and matrix, texts in single quotes, and 32 \
            references at most, or let the sender compute the value",
    },
    Explanation {
        number: "18",
        meaning: "an expression uses a context that has no value in its place",
        input: "the workflow {\"concurrency\":\"${{ matrix.os }}\",\"jobs\":{\"a\":{\"runs-on\":\"x\"}}}",
        remedy: "use only github, inputs and vars in the concurrency of the workflow, or move the group to the job",
    },
    Explanation {
        number: "19",
        meaning: "a matrix is malformed: a variable that is no list, an include or exclude that is no list of objects, or a \
            value that is a list, an object, or a number other than a signed 64-bit whole number",
        input: "the workflow {\"jobs\":{\"a\":{\"runs-on\":\"x\",\"strategy\":{\"matrix\":{\"n\":[1.5]}}}}}",
        remedy: "write such a value as a text, as \"1.5\"",
    },
    Explanation {
        number: "20",
        meaning: "a variable of a matrix has an empty list, or an object of its include or exclude is empty",
        input: "the workflow {\"jobs\":{\"a\":{\"runs-on\":\"x\",\"strategy\":{\"matrix\":{\"n\":[]}}}}}",
        remedy: "give the variable a value, or leave it or the object out",
    },
    Explanation {
        number: "21",
        meaning: "the lengths of the lists of a matrix multiply to over 4,096",
        input: "a job whose matrix has 13 variables of two values each",
        remedy: "shorten the lists, or split the job in two; exclude does not help, since it applies later",
    },
    Explanation {
        number: "22",
        meaning: "a matrix gives no leg, or more than 256",
        input: "the workflow {\"jobs\":{\"a\":{\"runs-on\":\"x\",\"strategy\":{\"matrix\":{}}}}}",
        remedy: "leave an empty matrix out; else shorten its lists, exclude combinations, or split the job in two",
    },
    Explanation {
        number: "23",
        meaning: "a workflow has more than 256 jobs",
        input: "a workflow of 257 jobs",
        remedy: "split the workflow in two, or use a matrix for jobs that are alike",
    },
    Explanation {
        number: "24",
        meaning: "a body, or a workflow, is longer than 65,536 bytes",
        input: "a body of 65,537 bytes, spaces included",
        remedy: "leave out the spaces that JSON does not need, and move long scripts of steps into files \
            of the repository",
    },
    Explanation {
        number: "25",
        meaning: "a member of \"strategy\" is none of \"matrix\", \"fail-fast\" and \"max-parallel\", or \
            of the wrong kind or range",
        input: "the workflow {\"jobs\":{\"a\":{\"runs-on\":\"x\",\"strategy\":{\"max-parallel\":0}}}}",
        remedy: "give \"fail-fast\" true or false, \"max-parallel\" a whole number from 1 to 256, and \"matrix\" an object; \
            expressions are not supported there",
    },
    Explanation {
        number: "26",
        meaning: "the \"if\" of a job is a condition that is not supported",
        input: "the workflow {\"jobs\":{\"a\":{\"runs-on\":\"x\",\"if\":\"github.ref == 'x'\"}}}",
        remedy: "use success(), failure(), always(), cancelled(), !cancelled(), true or false, or let a \
            step decide",
    },
];

/// The refusals of commands by the run table.
static OF_COMMANDS: [Explanation; 10] = [
    Explanation {
        number: "40",
        meaning: "there is no run with this id, or it is forgotten",
        input: "the line: look 1, before any admit",
        remedy: "use an id from the answer to an admit, such as 1 in: created 1",
    },
    Explanation {
        number: "41",
        meaning: "the run has completed, so it can't be cancelled",
        input: "the line: cancel 1, after run 1 has completed",
        remedy: "nothing needs to be done; look at the run for its conclusion",
    },
    Explanation {
        number: "42",
        meaning: "the runner has a lease: it holds one at a time, and is not discharged while it holds one",
        input: "the line: claim r1 2 linux, after claim r1 1 linux was answered with a lease",
        remedy: "report that leg by done first, or the runner by lost; or claim under the name of another runner",
    },
    Explanation {
        number: "43",
        meaning: "a command does not have its runner's next number, or a re-run does not name the next attempt; the \
            runner's last number follows, 0 if it has none, or the run's attempt",
        input: "the line: claim r1 2 linux, as the first of runner r1",
        remedy: "number the commands of each runner 1, 2, 3 and so on, and repeat a command word for \
            word, with its number, to get its reply again; to re-run a run name one more than its attempt",
    },
    Explanation {
        number: "44",
        meaning: "the runner does not hold that lease",
        input: "the line: done r1 1 9 success, where r1 does not run the leg of lease 9",
        remedy: "report the lease from the answer to the runner's claim, and each leg once",
    },
    Explanation {
        number: "45",
        meaning: "no command of this runner is known, or it was discharged after its last one",
        input: "the line: beat r9 1, before any claim of r9",
        remedy: "claim under this name first; names of runners compare by bytes",
    },
    Explanation {
        number: "46",
        meaning: "the history has 100,000 entries; refused commands and look-ups are entries too",
        input: "the 100,001st command of a script, or of a round of a service",
        remedy: "split the script in two; a client of a service opens a new session in the next round, and sends the same \
            again; with --forever no history has so many",
    },
    Explanation {
        number: "47",
        meaning: "the record of the command does not fit the area of the store's file",
        input: "look 1 and commit, 283 times each, and then an admit, over areas of 4,096 bytes",
        remedy: "copy the store into a file with larger areas by acts grow, and serve that; a client opens a new session then, and \
            sends the same again",
    },
    Explanation {
        number: "48",
        meaning: "a counter is at its last value: 100,000 runs that are not forgotten, 999,999,999 runs or leases in all, or \
            1,000 attempts of a run",
        input: "the admit of a run past 100,000",
        remedy: "forget the runs that have completed: forget RUN, with the id of the last of them; instead of a 1,001st \
            attempt, admit the event again under another delivery id",
    },
    Explanation {
        number: "49",
        meaning: "the run has not completed, so it can't be re-run",
        input: "the line: rerun 1 2, after run 1 was admitted, and before it has completed",
        remedy: "wait until a look shows the run as completed, or cancel it first",
    },
];

/// The failures of memory and of a store's file.
static OF_STORES: [Explanation; 8] = [
    Explanation {
        number: "50",
        meaning: "out of memory: what was asked was not done; only in rounds of a service it may have been",
        input: "any, on a machine that has no memory left",
        remedy: "free memory, and try again; a client of a service opens a new session, and sends the same again: a \
            delivery makes one run, and a runner's last number gets its reply again",
    },
    Explanation {
        number: "51",
        meaning: "a read, a write or a sync of the disk failed in this call",
        input: "acts init FILE 4096, on a file system that is full",
        remedy: "check the disk; that of a script is in memory, and fails if it runs out of memory. A client of a service \
            does not know whether its command was carried out: once the service has been restarted, it opens a new session, \
            and sends the same again",
    },
    Explanation {
        number: "52",
        meaning: "the disk failed in an earlier call, so it is not known what it holds",
        input: "any command of a script, after a commit was answered 51",
        remedy: "free memory, and play the script again: its store is in memory, and ends with it. Restart a service, so \
            that it opens its file again (with --forever it ends by itself); then a client opens a new session, and sends \
            the same again",
    },
    Explanation {
        number: "53",
        meaning: "no area is open on the disk, or its length is not that of two areas",
        input: "acts show FILE, of an empty file",
        remedy: "check that it is the right file; acts init makes a new store in an empty one",
    },
    Explanation {
        number: "54",
        meaning: "the active area encodes no table",
        input: "acts show FILE, of a store whose file another program has written",
        remedy: "use an earlier copy of the file; opening writes nothing to it",
    },
    Explanation {
        number: "55",
        meaning: "the file is not empty, so no new store is made in it; acts grow makes none in an empty file either",
        input: "acts init FILE 4096, a second time",
        remedy: "name another file, or move this one away",
    },
    Explanation {
        number: "56",
        meaning: "a step of a checkpoint is out of order: a begin when one has begun, a slice when nothing is left to \
            write, or a finish when none has begun or something is left",
        input: "the line: finish, before any begin",
        remedy: "write begin, then slice until it answers left 0, then finish; a service makes its checkpoints by itself",
    },
    Explanation {
        number: "57",
        meaning: "the active area has the layout of an earlier program, which does not have this command",
        input: "a forget, over a file of an earlier program that has no room for a checkpoint",
        remedy: "copy the store into a file with larger areas by acts grow, as after 47; a service upgrades a file to the current \
            layout before it is ready, if a checkpoint fits, and so do the checkpoints beside its sessions",
    },
];

/// The failures of streams, files and ports, and of the answers on them.
static OF_STREAMS: [Explanation; 2] = [
    Explanation {
        number: "60",
        meaning: "what the sessions were answered differs from the history, or a reply was withheld because of that",
        input: "none that is known: it would be a fault of the program",
        remedy: "keep the file as it is, and restart the service, which opens it: a client opens a new session and sends \
            the same again",
    },
    Explanation {
        number: "61",
        meaning: "an input, an output, a file, a port or a stream failed",
        input: "acts play < script > /dev/full",
        remedy: "check whether the disk is full, the other end of a pipe or stream is closed, the file exists, or another \
            program uses the port; a part of the answers may have been written",
    },
];

/// The refusals of HTTP requests that are no commands.
static OF_REQUESTS: [Explanation; 5] = [
    Explanation {
        number: "70",
        meaning: "the bytes are no head of an HTTP/1.1 request, or the head has over 64 headers or over 8,192 bytes",
        input: "a request whose first byte is 00",
        remedy: "send fewer and shorter headers; the session has ended, so open a new one for the next request",
    },
    Explanation {
        number: "71",
        meaning: "the length of the body is not given: Content-Length is missing for POST /events, occurs twice or is no \
            number of 1 to 9 digits, or there is a Transfer-Encoding",
        input: "POST /events with Content-Length: +1",
        remedy: "send one Content-Length in decimal digits, and the body in one piece; the session has ended, so open a new one",
    },
    Explanation {
        number: "72",
        meaning: "there is nothing at this path",
        input: "GET /runs/01",
        remedy: "write the path letter by letter, without a query, and a run's id without leading zeros",
    },
    Explanation {
        number: "73",
        meaning: "the path exists, but not for this method; the header Allow names the one that it accepts",
        input: "POST /runs/1",
        remedy: "use the method that Allow names, in capitals",
    },
    Explanation {
        number: "74",
        meaning: "X-GitHub-Delivery or X-GitHub-Event is missing, occurs twice, or is not of the required form",
        input: "POST /events without X-GitHub-Event",
        remedy: "send each once: an id of 1 to 64 letters, digits and -, and a name of 1 to 64 small letters, digits and _; the \
            session has ended, so open a new one",
    },
];

/// The refusals of lines and of inputs that are too long.
static OF_INPUT: [Explanation; 2] = [
    Explanation {
        number: "75",
        meaning: "a line of a script, or of a runner, is no command; a runner's line has 512 bytes at most",
        input: "the line: look 01",
        remedy: "separate the fields by one space, write numbers without leading zeros, and compare names with the forms of \
            docs/FORMATS.md; a runner's session continues, except after a line that is too long",
    },
    Explanation {
        number: "76",
        meaning: "a script, or what acts check or acts lint reads, is longer than 1,048,576 bytes",
        input: "a script of 1,048,577 bytes",
        remedy: "split the script in two; a workflow is 65,536 bytes at most (24)",
    },
];

impl fmt::Display for Explanation {
    fn fmt<W: fmt::Write>(&self, f: &mut fmt::Formatter<W>) -> fmt::Result {
        let Explanation {
            number,
            meaning,
            input,
            remedy,
        } = self;
        writeln!(f, "refused {number}: {meaning}.")?;
        writeln!(f, "What gets it: {input}.")?;
        write!(f, "What helps: {remedy}.")
    }
}

fn of_workflows() -> &'static [Explanation] {
    &OF_WORKFLOWS
}

fn of_commands() -> &'static [Explanation] {
    &OF_COMMANDS
}

fn of_stores() -> &'static [Explanation] {
    &OF_STORES
}

fn of_streams() -> &'static [Explanation] {
    &OF_STREAMS
}

fn of_requests() -> &'static [Explanation] {
    &OF_REQUESTS
}

fn of_input() -> &'static [Explanation] {
    &OF_INPUT
}

/// The refusals that a user can meet, in the order of their numbers. docs/FORMATS.md repeats them.
fn explanations() -> [&'static [Explanation]; 6] {
    [
        of_workflows(),
        of_commands(),
        of_stores(),
        of_streams(),
        of_requests(),
        of_input(),
    ]
}

fn push_numbers(
    numbers: &mut Vec<&'static str>,
    explanations: &'static [Explanation],
) -> Result<(), AllocError> {
    for explanation in explanations {
        numbers.push(explanation.number)?;
    }
    Ok(())
}

/// The numbers that are explained.
pub fn numbers(alloc: Global) -> Result<Vec<&'static str>, AllocError> {
    let mut numbers = Vec::new(alloc);
    for part in explanations() {
        push_numbers(&mut numbers, part)?;
    }
    Ok(numbers)
}

fn found_in(explanations: &'static [Explanation], number: &str) -> Option<&'static Explanation> {
    explanations
        .iter()
        .find(|explanation| explanation.number == number)
}

/// The explanation of the refusal with this number, or `None` if there is none.
pub fn explanation_of(number: &str) -> Option<&'static Explanation> {
    for part in explanations() {
        if let Some(explanation) = found_in(part, number) {
            return Some(explanation);
        }
    }
    None
}
