//! The program: `main` gives `run`, the top call of `query_runner`, the real world.
#![tactic(auto)]

use query_runner::{run, tell_first, words_of};
use run_ports::{DiskFiles, NoMeet, ReplayCourier, StdSink};
use std::process::ExitCode;

fn main(rt: HostRuntime) -> ExitCode {
    let mut err = StdSink::of(rt.stderr());
    let status = match words_of(&rt) {
        Ok(words) => run(
            &rt,
            rt.alloc(),
            words.as_slice(),
            &mut DiskFiles::new(&rt),
            &mut StdSink::of(rt.stdout()),
            &mut err,
            &ReplayCourier::new(),
            &NoMeet,
        ),
        Err(status) => {
            tell_first(rt.alloc(), &mut err, &status);
            status
        }
    };
    ExitCode::from(status.exit_code())
}
