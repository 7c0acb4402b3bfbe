//! Replays scenarios of files striped over object drives, shows and checks the structures of their layouts
//! (RFC 5664), and serves and asks over a network, as proved in `pnfs_run`. Beside what that writes, people are told
//! more on standard error.
#![tactic(auto)]

mod people;
mod refused_line;
mod usage;

ghost use Rattle.std.specs.Result.{ForOk};
ghost use Rattle.stripe_repair.specs.Placing.{CanPlace, Places};
ghost use Rattle.zone_place.specs.Choosing.{CanSpread, Spreads};

use advice::Kept;
use mio_ports::{PortLimits, StdNotes, TcpPorts};
use osd_bytes::put_all;
use osd_links::{FileDisk, StdSink, StdSource, SystemClock, TcpLinks};
use osd_lists::{Memory, Numbers};
use people::{Causes, tell};
use pnfs_run::replay::{Stop, fewest_first, stopped};
use pnfs_run::{Lent, Status, run};
use std::io::ErrorKind;
use std::process::ExitCode;
use std::{env, io};
use stripe_repair::{DriveLoad, Placer};
use usage::text_asked;
use zone_place::{ZoneAsk, ZoneLoad, ZonePlacer, deal};

// The program's name and its words.
fn all_words(rt: HostRuntime) -> io::Result<Vec<String>> {
    let words: Vec<String> = env::args(&rt)?.collect(rt.alloc())?;
    Ok(words)
}

fn main(rt: HostRuntime) -> ExitCode {
    let mut source = Kept::new(rt.alloc(), StdSource::new(rt));
    let mut sink = StdSink::new(rt);
    let words = match all_words(rt) {
        Ok(words) => words,
        Err(e) if e.kind() == ErrorKind::OutOfMemory => {
            let status = stopped(&mut sink, Stop::Memory, 0);
            return ExitCode::from(status.exit_code());
        }
        // A word that isn't text is none of a command.
        Err(_) => Vec::new(rt.alloc()),
    };
    let (_, words) = words.split_at(words.len().min(1));
    if let Some(text) = text_asked(words) {
        let status = match put_all(&mut sink, text.as_bytes()) {
            Ok(()) => Status::Done,
            Err(_) => Status::WriteFault,
        };
        return ExitCode::from(status.exit_code());
    }
    let alloc = rt.alloc();
    let placer = Placer::new(
        |count: u32, loads: &[DriveLoad]| -> Result<Numbers, Memory>
            requires { CanPlace count loads.now }
            ensures { ForOk result (Places count loads.now) }
        { fewest_first(alloc, count, loads) },
    );
    let zones = ZonePlacer::new(
        |ask: &ZoneAsk, loads: &[ZoneLoad]| -> Result<Numbers, Memory>
            requires { CanSpread ask.now loads.now }
            ensures { ForOk result (Spreads ask.now loads.now) }
        { deal(alloc, ask, loads) },
    );
    let mut links = TcpLinks::new(rt, alloc);
    let mut ports = TcpPorts::new(rt, alloc, PortLimits::usual());
    let mut clock = SystemClock::new(rt);
    let lent = Lent {
        disk: FileDisk::new(rt),
        notes: StdNotes::new(rt),
    };
    let (status, lent) = run(
        alloc,
        words,
        &mut source,
        &mut sink,
        &mut links,
        &mut ports,
        &mut clock,
        lent,
        &placer,
        &zones,
    );
    let causes = Causes {
        input: source.bytes(),
        links: ports.last_fault().or(links.last_fault()),
        disk: lent.disk.last_fault(),
    };
    tell(rt, alloc, &status, words, causes);
    ExitCode::from(status.exit_code())
}
