use crate::status::Status;
use sql_values::Text;
use std::rt::Env;
use std::{env, io};

/// The arguments after the program's name. Where one is not UTF-8 there are none, and so no command line.
pub fn words_of<R: Env + AllocGlobal>(rt: &R) -> Result<Vec<Text>, Status> {
    let args = match env::args(rt) {
        Ok(args) => args,
        Err(fault) if fault.kind() == io::ErrorKind::OutOfMemory => return Err(Status::Memory),
        Err(_) => return Ok(Vec::new(rt.alloc())),
    };
    let mut words = Vec::new(rt.alloc());
    for word in args.skip(1) {
        words.push(Text::of(word))?;
    }
    Ok(words)
}
