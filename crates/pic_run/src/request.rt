//! Reads the words of a command line.
ghost use Rattle.std.specs.Prelude.{◌≡◌, false, Some, None, map, string_bytes, IfOk, IsErrOf};
ghost use Rattle.pic_run.specs.Request.{command_of, command_of_mode, is_option, of_run, of_script, request, script_of};

use crate::flags::{Flags, flags_of};
use std::alloc::AllocError;

/// What the program is to do.
#[derive(Drop)]
pub enum Mode {
    /// Run the script of a file on the input of a file.
    Run { script: String, input: String },
    /// Tell whether the text of a file is a script.
    Check { script: String },
    /// Write the canonical text of the script of a file.
    Show { script: String },
}

/// What the words of a command line ask for: what to do, and whether the report of a run is to have
/// what each fiber did, and each entry of the run.
#[derive(Drop)]
pub struct Request {
    pub mode: Mode,
    pub log: bool,
    pub trace: bool,
}

impl Request {
    /// A request without flags.
    fn plain(mode: Mode) -> Request
        ensures { command_of result ≡ command_of_mode mode false false }
    {
        Request {
            mode,
            log: false,
            trace: false,
        }
    }

    /// The name of the script's file.
    pub(crate) fn script(&self) -> &str
        ensures { result.now ≡ script_of (command_of self.now) }
    {
        match &self.mode {
            Mode::Run { script, .. } | Mode::Check { script } | Mode::Show { script } => {
                script.as_str()
            }
        }
    }
}

/// Why words gave no request.
#[derive(Clone, Copy, Debug, PartialEq, Eq)]
pub enum RequestRefusal {
    /// The words ask for nothing that the program does.
    Usage,
    /// Memory was wanted and there was none.
    Memory,
}

impl From<AllocError> for RequestRefusal {
    ghost use Rattle.std.specs.Prelude.{◌≡◌};
    ghost use Rattle.pic_run.specs.declared.request.RequestRefusal.TheVariants.{Memory};

    ghost from_gives = { λ _ e. e ≡ Memory };

    fn from(_error: AllocError) -> RequestRefusal {
        RequestRefusal::Memory
    }
}

/// The request of the words, which are the arguments without the program's name: `run`, the name of
/// a script's file and the name of an input's file, and then `--log` and `--trace`, each at most once
/// and in any order; or `check` or `show` and the name of a script's file. No name begins with `-`.
pub fn request_of(words: &[String]) -> Result<Request, RequestRefusal>
    ensures read { IfOk result (λ r. request (map string_bytes words.now) ≡ Some (command_of r)) }
    ensures usage { IsErrOf result RequestRefusal.Usage → request (map string_bytes words.now) ≡ None }
{
    match words {
        [word, script] => request_of_script(word, script),
        [word, script, input, flags @ ..] => request_of_run(word, script, input, flags),
        _ => Err(RequestRefusal::Usage),
    }
}

/// What a word and the name of a script ask for.
fn request_of_script(word: &String, script: &String) -> Result<Request, RequestRefusal>
    ensures read { IfOk result (λ r.
        of_script (string_bytes word.now) (string_bytes script.now) ≡ Some (command_of r)) }
    ensures usage { IsErrOf result RequestRefusal.Usage
        → of_script (string_bytes word.now) (string_bytes script.now) ≡ None }
{
    if is_option(script.as_str()) {
        return Err(RequestRefusal::Usage);
    }
    if word.as_str() == "check" {
        let script = script.clone()?;
        return Ok(Request::plain(Mode::Check { script }));
    }
    if word.as_str() == "show" {
        let script = script.clone()?;
        return Ok(Request::plain(Mode::Show { script }));
    }
    Err(RequestRefusal::Usage)
}

/// What a word, the name of a script, the name of an input and then flags ask for.
fn request_of_run(
    word: &String,
    script: &String,
    input: &String,
    flags: &[String],
) -> Result<Request, RequestRefusal>
    ensures read { IfOk result (λ r.
        of_run (string_bytes word.now) (string_bytes script.now) (string_bytes input.now) (map string_bytes flags.now)
        ≡ Some (command_of r)) }
    ensures usage { IsErrOf result RequestRefusal.Usage
        → of_run (string_bytes word.now) (string_bytes script.now) (string_bytes input.now) (map string_bytes flags.now)
        ≡ None }
{
    if word.as_str() != "run" || is_option(script.as_str()) || is_option(input.as_str()) {
        return Err(RequestRefusal::Usage);
    }
    let Some(Flags { log, trace }) = flags_of(flags) else {
        return Err(RequestRefusal::Usage);
    };
    let script = script.clone()?;
    let input = input.clone()?;
    Ok(Request {
        mode: Mode::Run { script, input },
        log,
        trace,
    })
}

/// Whether the word begins with `-`.
fn is_option(word: &str) -> bool
    ensures { result ≡ is_option word.now }
{
    match word.as_bytes() {
        [first, ..] => *first == b'-',
        [] => false,
    }
}
