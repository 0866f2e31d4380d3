//! The program: judges plane structures of rigid blocks laid without mortar, after Livesley (1978). It makes the real
//! devices and hands them to the top call of stack_cli.
#![tactic(auto)]

use stack_cli::{run_standard, words_given};
use stack_outside::{RealShelf, standard_error, standard_output};
use std::env;
use std::process::ExitCode;

/// The program over the real devices: its words after its own name, files by their paths, standard output and
/// standard error.
fn main(rt: HostRuntime) -> ExitCode {
    let alloc = rt.alloc();
    let given = words_given(alloc, env::args(&rt));
    let mut shelf = RealShelf::new(&rt, alloc);
    let mut out = standard_output(&rt);
    let mut err = standard_error(&rt);
    ExitCode::from(run_standard(alloc, given, &mut shelf, &mut out, &mut err))
}
