//! The command line program: the system's files and streams for [`run_circt`].
#![tactic(auto)]

ghost use Rattle.std.specs.Prelude.{IfErr};
ghost use Rattle.circt_top.specs.Ends.{end_of, IsStop};

use circt_top::run::run_circt;
use circt_top::status::Status;
use circt_top::{Open, stop};
use command_line::usage::UsageKind;
use io_edge::real_files::RealFiles;
use io_edge::real_sink::RealSink;
use std::env;
use std::io::ErrorKind;
use std::process::ExitCode;

/// Runs the words after the program's name, and ends with the status' code. Words that are not
/// UTF-8 are bad arguments.
fn main(rt: HostRuntime) -> ExitCode {
    let mut err = RealSink::new(rt.stderr());
    let words = match words(&rt) {
        Ok(words) => words,
        Err(status) => {
            let status = stop(&mut err, status);
            return ExitCode::from(status.code());
        }
    };
    let mut files = RealFiles::new(&rt);
    let mut out = RealSink::new(rt.stdout());
    let status = run_circt(
        &rt,
        rt.alloc(),
        words.as_slice(),
        &mut files,
        &mut out,
        &mut err,
        &Open,
    );
    ExitCode::from(status.code())
}

// The words after the program's name.
fn words(rt: &HostRuntime) -> Result<Vec<String>, Status>
    ensures { IfErr result (λ status. IsStop (end_of status)) }
{
    let mut words = match env::args(rt) {
        Ok(args) => args,
        Err(error) if error.kind() == ErrorKind::OutOfMemory => return Err(Status::NoMemory),
        Err(_) => return Err(Status::Usage(UsageKind::Words)),
    };
    let _name = words.next();
    match words.collect::<Vec<_>>(rt.alloc()) {
        Ok(words) => Ok(words),
        Err(_) => Err(Status::NoMemory),
    }
}
