// The command line.
ghost use Rattle.std.specs.Prelude.{◌≡◌, ◌<◌, IfOk};
ghost use Rattle.inspection.specs.Counts.{all_met};
ghost use Rattle.image.specs.declared.fault.Fault.TheVariants.{Usage};

use crate::demonstration::demonstrate;
use image::fault::Fault;
use image::inspect::inspect;
use inspection::summary::Summary;
use std::env;

// Inspects an image file and prints the summary, or says why it does not. That something was met is a clause, here and of `run`
// and `inspect`: a type for counts that are not 0 would need its own `note`, `new` and words beside those of `Summary`.
fn inspect_and_sum(rt: &HostRuntime, path: &str) -> Result<Summary, Fault>
    ensures { IfOk result (λ s. 0 < all_met s) }
{
    match inspect(rt, path) {
        Ok(summary) => {
            println!(rt; "{summary}")?;
            Ok(summary)
        }
        Err(fault) => {
            eprintln!(rt; "cardtool: {path}: {fault}")?;
            Err(fault)
        }
    }
}

// Says how the tool is used.
fn usage(rt: &HostRuntime) -> Fault
    ensures { result ≡ Usage }
{
    let fault = Fault::Usage;
    let _ = eprintln!(rt; "cardtool: {fault}");
    fault
}

// Does what the words on the command line ask: nothing, and it demonstrates; `inspect FILE`, and it inspects that file.
// What is met is at least one sector.
pub fn run(rt: &HostRuntime) -> Result<Summary, Fault>
    ensures { IfOk result (λ s. 0 < all_met s) }
{
    let mut words = env::args(rt)?;
    let _program = words.next();
    let Some(verb) = words.next() else {
        return demonstrate(rt);
    };
    let Some(path) = words.next() else {
        return Err(usage(rt));
    };
    if verb.as_str() == "inspect" && words.next().is_none() {
        return inspect_and_sum(rt, path.as_str());
    }
    Err(usage(rt))
}
