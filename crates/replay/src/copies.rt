//! Copies of setups.
ghost use Rattle.std.specs.Prelude.{◌≡◌, ◌++◌, length, IfOk, OnOk};

use crate::pool_counts::{counts_in, pools_with};
use items::Items;
use layout::{Pools, Program};
use std::alloc::{AllocError, Global};
use trace_text::{Setup, Start};

/// The same start.
pub(crate) fn start_copied(alloc: Global, start: &Start) -> Result<Start, AllocError>
    ensures { IfOk result (λ copy. copy ≡ start.now) }
{
    let arguments = Items::from_slice(alloc, start.arguments.as_slice())?;
    let values = Items::from_slice(alloc, start.values.as_slice())?;
    Ok(Start {
        arrival: start.arrival,
        function: start.function,
        arguments,
        values,
    })
}

/// The same starts after those of a list.
pub fn add_starts(
    alloc: Global,
    list: &mut Items<Start>,
    starts: &[Start],
) -> Result<(), AllocError>
    ensures { OnOk result (list.new ≡ list.old ++ starts.now) }
{
    for start in starts {
        list.push(start_copied(alloc, start)?)?;
    }
    Ok(())
}

/// The same pools.
pub fn pools_copied(alloc: Global, program: &Program, pools: &Pools) -> Result<Pools, AllocError>
    requires { length pools.now ≡ length program.now.layouts }
    ensures { IfOk result (λ copy. copy ≡ pools.now) }
{
    let Ok(layouts) = u32::try_from(program.layouts().count()) else {
        return Err(AllocError);
    };
    let counts = counts_in(alloc, pools, layouts)?;
    pools_with(alloc, program, counts.as_slice())
}

/// The same starts.
pub fn starts_copied(alloc: Global, starts: &[Start]) -> Result<Items<Start>, AllocError>
    ensures { IfOk result (λ copy. copy ≡ starts.now) }
{
    let mut copy = Items::new(alloc);
    add_starts(alloc, &mut copy, starts)?;
    Ok(copy)
}

/// The same setup.
pub fn setup_copied(alloc: Global, program: &Program, setup: &Setup) -> Result<Setup, AllocError>
    requires { length setup.now.pools ≡ length program.now.layouts }
    ensures { IfOk result (λ copy. copy ≡ setup.now) }
{
    let pools = pools_copied(alloc, program, &setup.pools)?;
    let starts = starts_copied(alloc, setup.starts.as_slice())?;
    Ok(Setup { pools, starts })
}
