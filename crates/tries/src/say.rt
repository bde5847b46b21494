// What is written: a line for each case, with what the calls answered.
use refusals::Refusal;
use std::io::Result;

// A case's answer: 0, or a refusal's number, with the height that 11 gives.
pub fn answered(rt: &impl Print, case: &str, refused: Option<Refusal>) -> Result<()> {
    match refused {
        None => println!(rt; "{case}: {}", refusals::ACCEPTED),
        Some(Refusal::OutOfOrder { height }) => {
            println!(rt;
                "{case}: {} with {height}",
                Refusal::OutOfOrder { height }.number()
            )
        }
        Some(refusal) => println!(rt; "{case}: {}", refusal.number()),
    }
}
