// The designer's rules of the inverter, entered into a memory of eight records, withdrawn and looked up.
use crate::desk::{Desk, print_refusal};
use faults::refusal::Refusal;
use inverter::designer::first_calls;
use inverter::phrases::{Asked, Found};
use lengths::grid::Grid;
use run::turn::Call;
use std::fmt::Display;

// What the edit of a rule answered.
fn print_done<F: Copy + Display + Into<Refusal>>(
    rt: &HostRuntime,
    done: Result<(), F>,
) -> anyhow::Result<()> {
    match done {
        Ok(()) => println!(rt; "ok")?,
        Err(fault) => print_refusal(rt, fault)?,
    }
    Ok(())
}

impl Desk<'_, '_> {
    // Makes one of the calls that edit the rules or look one up.
    pub(crate) fn edit(&mut self, call: Call<Grid>) -> anyhow::Result<()> {
        let (rt, asked) = (self.rt, Asked(call));
        print!(rt; "{asked}")?;
        match call {
            Call::Enter(tag, rule) => print_done(rt, self.cell.enter(tag, rule))?,
            Call::Withdraw(tag) => print_done(rt, self.cell.withdraw(tag))?,
            Call::LookUp(tag) => {
                let found = Found(self.cell.look_up(tag));
                println!(rt; "{found}")?;
            }
            Call::Try | Call::Compact | Call::Reduce => {}
        }
        Ok(())
    }

    pub(crate) fn edit_rules(&mut self) -> anyhow::Result<()> {
        let rt = self.rt;
        println!(rt; "The designer's rules, in a memory of 8 records:")?;
        for call in first_calls() {
            self.edit(call)?;
        }
        Ok(())
    }
}
