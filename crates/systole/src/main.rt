//! The program `systole`: the commands over the file system, standard output and standard error.
#![tactic(auto)]

use std::alloc::AllocError;
use std::process::ExitCode;
use std::rt::Env;
use std::{env, io};
use sys_outside::{FileShelf, StreamSink};
use systole_top::{Status, systole};

fn main(rt: HostRuntime) -> ExitCode {
    let status = match command_words(&rt) {
        Ok(words) => answer(&rt, &words),
        Err(AllocError) => Status::Memory,
    };
    ExitCode::from(status as u8)
}

fn answer(rt: &HostRuntime, words: &[String]) -> Status {
    let mut shelf = FileShelf::new(rt);
    let mut out = StreamSink::new(rt.stdout());
    let mut err = StreamSink::new(rt.stderr());
    systole(rt.alloc(), words, &mut shelf, &mut out, &mut err)
}

// The words of the command line without the program's own name. Where a word isn't text the command line is faulty: it
// is answered as no words are.
fn command_words(rt: &HostRuntime) -> Result<Vec<String>, AllocError> {
    let mut words = Vec::new(rt.alloc());
    match env::args(rt) {
        Ok(args) => {
            for word in args.skip(1) {
                words.push(word)?;
            }
        }
        Err(error) if error.kind() == io::ErrorKind::OutOfMemory => return Err(AllocError),
        Err(_) => {}
    }
    Ok(words)
}
