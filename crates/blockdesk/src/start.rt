ghost use Rattle.std.specs.Prelude.{◌≡◌, ◌<◌};

use crate::outer::Outer;
use desk_io::{Memory, Steps, Text};
use desk_run::NO_MEMORY;
use std::env;
use std::io::ErrorKind;
use std::rt::Env;
use std::sync::ledger::{Blank, Ledger};

/// The run over the program's own words. It answers the status.
pub fn start<L: Ledger>(rt: &HostRuntime, blank: Blank) -> u8
    requires name { blank.name ≡ L.name }
    requires parts { blank.parts ≡ L.parts }
    requires shared { 0 < blank.parts }
{
    let mut steps = Steps::<L>::open(blank);
    let Ok(words) = words_of(rt) else {
        return NO_MEMORY;
    };
    match Outer::of(rt, &words) {
        Ok(mut outer) => outer.run(rt, &words, &mut steps),
        Err(Memory) => NO_MEMORY,
    }
}

// The words after the program's name, and none where one of them is not UTF-8.
fn words_of(rt: &(impl Env + AllocGlobal)) -> Result<Vec<Text>, Memory> {
    let mut words = Vec::new(rt.alloc());
    match env::args(rt) {
        Ok(args) => {
            for arg in args.skip(1) {
                words.push(Text::wrap(arg))?;
            }
            Ok(words)
        }
        Err(error) if error.kind() == ErrorKind::OutOfMemory => Err(Memory),
        Err(_) => Ok(words),
    }
}
