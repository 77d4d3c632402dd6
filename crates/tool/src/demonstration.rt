// The demonstration: the descriptors of a small volume are written and inspected, and so are damaged copies of them.
ghost use Rattle.std.specs.Prelude.{◌≡◌, IfOk, OnOk};
ghost use Rattle.inspection.specs.Counts.{all_met};
ghost use Rattle.image.specs.Reports.{Met};

use descriptor::kinds::{Integrity, Sector};
use encode::descriptors::{anchor, partition, primary, terminating};
use encode::limits::OffLimits;
use encode::seal::Stamp;
use encode::table_descriptors::{integrity, logical_volume, unallocated_space};
use image::fault::Fault;
use image::inspect::report;
use inspection::summary::Summary;
use recognition::structure::Structure;
use recognition::written::written;
use sample::damage::{age, shrink_blocks, turn_bit};
use sample::volume::{DATE, INTEGRITY, MAIN, RESERVE, SERIAL, free_space, name, partitions};
use std::io;

// Where a descriptor of the sample stands.
fn at(location: u32) -> Stamp
    ensures { result ≡ record { serial = 1; location = location } }
{
    Stamp {
        serial: SERIAL,
        location,
    }
}

// The recognition sequence and an anchor.
fn show_system(rt: &HostRuntime, summary: &mut Summary) -> io::Result<()>
    ensures { OnOk result (Met 4 summary.old summary.new) }
{
    report(rt, 16, &written(Structure::Bea01), summary)?;
    report(rt, 17, &written(Structure::Nsr03), summary)?;
    report(rt, 18, &written(Structure::Tea01), summary)?;
    let stamp = Stamp {
        serial: 0,
        location: 256,
    };
    report(rt, 256, &anchor(stamp, MAIN, RESERVE), summary)?;
    Ok(())
}

// The logical volume of the sample.
fn sample_volume(location: u32) -> Result<Sector, OffLimits> {
    logical_volume(at(location), 3, &name(b"TALKS"), &partitions(), INTEGRITY)
}

// The main sequence, and its integrity descriptor.
fn show_sequence(rt: &HostRuntime, summary: &mut Summary) -> Result<(), Fault>
    ensures { OnOk result (Met 7 summary.old summary.new) }
{
    let all = partitions();
    let first = primary(at(32), 0, &name(b"MUSEUM CARD 12"), &name(b"MUSEUM"), &DATE);
    report(rt, 32, &first, summary)?;
    report(rt, 33, &partition(at(33), 1, all[0]), summary)?;
    report(rt, 34, &partition(at(34), 2, all[1]), summary)?;
    report(rt, 35, &sample_volume(35)?, summary)?;
    report(
        rt,
        36,
        &unallocated_space(at(36), 4, &free_space())?,
        summary,
    )?;
    report(rt, 37, &terminating(at(37)), summary)?;
    report(
        rt,
        64,
        &integrity(at(64), &DATE, Integrity::Closed, &all)?,
        summary,
    )?;
    Ok(())
}

// Copies that came to harm.
fn show_damaged(rt: &HostRuntime, summary: &mut Summary) -> Result<(), Fault>
    ensures { OnOk result (Met 5 summary.old summary.new) }
{
    let all = partitions();
    let mut moved_bit = partition(at(33), 1, all[0]);
    turn_bit(&mut moved_bit, 188);
    println!(rt; "- a partition's first sector with one bit turned, in sector 33")?;
    report(rt, 33, &moved_bit, summary)?;
    println!(rt; "- sector 37's terminator, landed in sector 53")?;
    report(rt, 53, &terminating(at(37)), summary)?;
    let mut old = terminating(at(37));
    age(&mut old);
    println!(rt; "- a terminator of version 2")?;
    report(rt, 37, &old, summary)?;
    let mut small = sample_volume(35)?;
    shrink_blocks(&mut small);
    println!(rt; "- a logical volume of blocks of 512 bytes, with no byte under its CRC")?;
    report(rt, 35, &small, summary)?;
    let mut wrong_sum = terminating(at(37));
    turn_bit(&mut wrong_sum, 4);
    println!(rt;
        "- a terminator whose sum is wrong: it does not look like a descriptor, and is only counted"
    )?;
    report(rt, 37, &wrong_sum, summary)?;
    Ok(())
}

// Runs the demonstration, and answers what was met in it.
pub fn demonstrate(rt: &HostRuntime) -> Result<Summary, Fault>
    ensures { IfOk result (λ s. all_met s ≡ 16) }
{
    let mut summary = Summary::new();
    println!(rt; "The descriptors of a small volume, as they are written:")?;
    show_system(rt, &mut summary)?;
    show_sequence(rt, &mut summary)?;
    println!(rt; "Damaged copies of them:")?;
    show_damaged(rt, &mut summary)?;
    println!(rt; "{summary}")?;
    Ok(summary)
}
