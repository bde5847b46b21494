// Makes the calls of document 01's "Numbers to try" and of the cases that 02 adds, and says of each what they answered.
#![tactic(auto)]

mod companies;
mod desks;
mod finals;
mod growth;
mod handovers;
mod keepers;
mod layouts;
mod pairs;
mod people;
mod say;

use std::io::Result;

fn main(rt: HostRuntime) -> Result<()> {
    layouts::majorities(&rt)?;
    layouts::blocks(&rt)?;
    layouts::racks(&rt)?;
    growth::on_blank(&rt)?;
    growth::made_again(&rt)?;
    growth::heights(&rt)?;
    finals::twice(&rt)?;
    desks::signers(&rt)?;
    handovers::roll_alone(&rt)?;
    handovers::lacking(&rt)?;
    handovers::empty(&rt)?;
    pairs::refused(&rt)?;
    companies::limits(&rt)?;
    companies::full_table(&rt)
}
