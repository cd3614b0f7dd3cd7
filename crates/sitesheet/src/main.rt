// Prints the sheet of the site whose map is the file site.map of the current folder.
#![tactic(auto)]

use console::{NoAnswer, read_whole, write_answer};
use sheet::sheet;
use site::Site;
use std::fs::File;
use std::process::ExitCode;

fn answer(rt: &HostRuntime) -> Result<Vec<u8>, NoAnswer> {
    let map = read_whole(rt.alloc(), File::open(rt, "site.map")?)?.ok_or(NoAnswer::TooLong)?;
    let site = Site::read(map.as_slice())?;
    Ok(sheet(rt.alloc(), &site)?)
}

fn main(rt: HostRuntime) -> ExitCode {
    if let Err(error) = write_answer(&mut rt.stdout(), answer(&rt)) {
        let _ = eprintln!(rt; "sitesheet: site.map: {error}");
        return ExitCode::FAILURE;
    }
    ExitCode::SUCCESS
}
