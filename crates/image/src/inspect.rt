// An image file, sector by sector.
ghost use Rattle.std.specs.Prelude.{◌≡◌, ◌^◌, ◌<◌, ◌≤◌, IfOk, IfErr};
ghost use Rattle.inspection.specs.Counts.{noted, all_met};
ghost use Rattle.inspection.specs.Findings.{examined, found_in};
ghost use Rattle.image.specs.Reports.{told, Met, Cut};

use crate::fault::Fault;
use descriptor::kinds::{SECTOR_BYTES, Sector};
use inspection::finding::{Finding, examine};
use inspection::summary::Summary;
use std::io::Read;
use std::{fs, io};
use wording::Line;

// Whether a finding is worth a line.
fn worth_telling(finding: Finding<'_>) -> bool
    ensures { result ≡ told (found_in finding.entry) }
{
    !matches!(finding, Finding::Blank | Finding::Other)
}

// Examines a sector, counts it, and prints what it is if that is worth a line. The handle is a parameter of whatever
// prints, as everywhere, so that of what travels with it the counts alone are left.
pub fn report(
    rt: &HostRuntime,
    number: u32,
    sector: &Sector,
    summary: &mut Summary,
) -> io::Result<()>
    ensures noted { summary.new ≡ noted (examined sector.now number) summary.old }
    ensures met { Met 1 summary.old summary.new }
{
    let finding = examine(sector, number);
    summary.note(finding);
    if worth_telling(finding) {
        println!(rt; "{}", Line { number, finding })?;
    }
    Ok(())
}

// Fills a sector from a source, and answers how many bytes came before the source ended.
pub fn fill<R: Read>(source: &mut R, sector: &mut Sector) -> io::Result<usize>
    ensures { IfOk result (λ n. n ≤ 2048) }
{
    let mut filled = 0;
    while filled < SECTOR_BYTES {
        let count = source.read(&mut sector[filled..])?;
        if count == 0 {
            break;
        }
        filled += count;
    }
    Ok(filled)
}

// Goes through an image file, prints what is worth a line, and answers the counts: of one sector or more, each counted
// once.
pub fn inspect(rt: &HostRuntime, path: &str) -> Result<Summary, Fault>
    ensures met { IfOk result (λ s. (0 < all_met s) × (all_met s < 2 ^ 32)) }
    ensures cut { IfErr result Cut }
{
    let mut file = fs::open(rt, path)?;
    let mut sector = [0u8; SECTOR_BYTES];
    let mut summary = Summary::new();
    for number in 0..u32::MAX {
        match fill(&mut file, &mut sector)? {
            0 if number == 0 => return Err(Fault::Empty),
            0 => return Ok(summary),
            SECTOR_BYTES => report(rt, number, &sector, &mut summary)?,
            bytes => {
                return Err(Fault::Partial {
                    sector: number,
                    bytes,
                });
            }
        }
    }
    Err(Fault::TooLong)
}
