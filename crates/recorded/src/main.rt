// Replays the crate's recorded answers, read from standard input, on the calls; says how many calls there were and how many answers differ.
// What the lines mean stands at the top of the record.
#![tactic(auto)]

mod entry;
mod look;
mod play;
mod tally;
mod text;

use crate::play::Player;
use pieces::read_full;
use std::io;
use std::io::Read;

fn play_all(input: &mut impl Read, player: &mut Player) -> io::Result<()> {
    let mut buf = [0u8; 4096];
    for _ in 0..1000 {
        let n = read_full(input, &mut buf)?;
        player.read(&buf[0..n]);
        if n < 4096 {
            break;
        }
    }
    // a last line without an end
    player.read(b"\n");
    Ok(())
}

fn main(rt: HostRuntime) -> io::Result<()> {
    let mut player = Player::new();
    play_all(&mut rt.stdin(), &mut player)?;
    print!(rt; "{}", player.tally())
}
