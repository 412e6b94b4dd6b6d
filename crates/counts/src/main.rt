//! Prints how many cells a message and a bucket may queue in short windows, and how a message is refused.
#![tactic(auto)]

use arrivals::{Arrival, Bucket, KindFault, Message};
use std::io;

fn print_counts(rt: &impl Print, message: &Message, bucket: &Bucket) -> io::Result<()> {
    println!(rt; "window message bucket")?;
    for window in 1..26 {
        let of_message = message.count(window);
        let of_bucket = bucket.count(window);
        println!(rt; "{window:>6} {of_message:>7} {of_bucket:>6}")?;
    }
    Ok(())
}

fn print_made(rt: &impl Print, name: &str, made: Result<Message, KindFault>) -> io::Result<()> {
    match made {
        Ok(_) => println!(rt; "{name}: accepted"),
        Err(fault) => {
            // the number alone: a kind's fault names nobody
            let number = fault.number();
            println!(rt; "{name}: refused with {number}")
        }
    }
}

fn main(rt: HostRuntime) -> io::Result<()> {
    if let (Ok(message), Ok(bucket)) = (Message::new(20, 0, 3, 2), Bucket::new(2, 10)) {
        print_counts(&rt, &message, &bucket)?;
    }
    print_made(&rt, "message T 6 J 0 N 3 g 2", Message::new(6, 0, 3, 2))?;
    print_made(&rt, "message T 5 J 0 N 3 g 2", Message::new(5, 0, 3, 2))
}
