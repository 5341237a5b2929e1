// Price records and weights at both sides of their limits, which no console line reaches.
use crate::refused::show_refused;
use price::{Price, Weighted};

// The largest part of a price.
const MOST: i64 = 1 << 52;

const PARTS: [(i64, i64); 13] = [
    (0, 0),
    (MOST, 0),
    (MOST + 1, 0),
    (-MOST, 0),
    (-MOST - 1, 0),
    (0, MOST),
    (0, MOST + 1),
    (0, -MOST),
    (0, -MOST - 1),
    (MOST, -MOST),
    (MOST + 1, -MOST - 1),
    (i64::MAX, 0),
    (0, i64::MIN),
];

const WEIGHTS: [u32; 6] = [0, 1, 254, 255, 256, u32::MAX];

fn show_part(rt: &HostRuntime, cycles: i64, reads: i64) -> anyhow::Result<()> {
    print!(rt; "price {cycles} {reads}: ")?;
    match Price::new(cycles, reads) {
        Ok(price) => {
            println!(rt; "made, {} {}", price.cycles(), price.reads())?;
            Ok(())
        }
        Err(fault) => show_refused(rt, fault.into()),
    }
}

pub(crate) fn show_parts(rt: &HostRuntime) -> anyhow::Result<()> {
    for (cycles, reads) in PARTS {
        show_part(rt, cycles, reads)?;
    }
    Ok(())
}

// Prints what the largest price and a read weigh.
fn show_weight(rt: &HostRuntime, weight: u32, most: Price, read: Price) -> anyhow::Result<()> {
    print!(rt; "weight {weight}: ")?;
    match Weighted::new(weight) {
        Ok(tariff) => {
            println!(rt; "made, {} and {}", tariff.weigh(most), tariff.weigh(read))?;
            Ok(())
        }
        Err(fault) => show_refused(rt, fault.into()),
    }
}

pub(crate) fn show_weights(rt: &HostRuntime) -> anyhow::Result<()> {
    let (Ok(most), Ok(read)) = (Price::new(MOST, MOST), Price::new(0, 1)) else {
        return Err(anyhow::anyhow!("a price in range was refused"));
    };
    for weight in WEIGHTS {
        show_weight(rt, weight, most, read)?;
    }
    Ok(())
}
