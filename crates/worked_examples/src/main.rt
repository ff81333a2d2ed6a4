// Document 01's bench book, every line of it, with what document 02 changes and adds, run over the library. What it writes is compared with the file stdout.
// That the starred lines hold of the definitions is proved as one table (crate bench_book). A line that can't be written ends the program with the error.
#![tactic(auto)]

use layout::{Layout, Measured, Rack, Tray};
use margin::LossMargin;
use std::io;

fn cabinet(b: u32, u: u32, k: u32, d: u32) -> Layout {
    Layout {
        racks: b,
        size: u,
        dimension: k,
        helpers: d,
        errors: 0,
    }
}

// Bytes in hex, and the line's end.
fn say_bytes(rt: &impl Print, bytes: &[u8]) -> io::Result<()> {
    for byte in bytes {
        print!(rt; " {byte:02x}")?;
    }
    println!(rt;)
}

// Symbols of the second field in decimal, and the line's end.
fn say_symbols(rt: &impl Print, symbols: &[u16]) -> io::Result<()> {
    for symbol in symbols {
        print!(rt; " {symbol}")?;
    }
    println!(rt;)
}

// What the layout call of the field whose root has so many powers answers: the refusal, L, r and the symbols that cross.
fn measure(rt: &impl Print, order: u32, b: u32, u: u32, k: u32, d: u32) -> io::Result<()> {
    print!(rt; "layout {b} {u} {k} {d} answers")?;
    let answer = layout::measure(order, cabinet(b, u, k, d));
    match answer {
        Measured::Known {
            layers,
            checks,
            traffic,
        } => println!(rt; " 0 {layers} {checks} {traffic}"),
        Measured::Refused(e) => println!(rt; " {e}"),
    }
}

fn layouts(rt: &impl Print) -> io::Result<()> {
    measure(rt, 255, 4, 3, 8, 3)?;
    measure(rt, 255, 4, 4, 8, 3)?;
    measure(rt, 255, 4, 3, 2, 3)?;
    measure(rt, 255, 4, 3, 10, 3)?;
    measure(rt, 255, 4, 3, 8, 4)?;
    measure(rt, 255, 4, 3, 8, 1)?;
    measure(rt, 255, 10, 3, 24, 9)?;
    measure(rt, 255, 11, 3, 27, 10)?;
    measure(rt, 255, 7, 5, 24, 6)?;
    measure(rt, 255, 13, 3, 33, 12)
}

fn storing(rt: &impl Print) -> io::Result<()> {
    let mut two = [0u8; 2];
    store::store(cabinet(2, 1, 1, 1), &[0xA7], &mut two);
    print!(rt; "stored")?;
    say_bytes(rt, &two)?;
    let given = [0x14, 0x14, 0x18, 0x18, 0x24, 0x24, 0x28, 0x28];
    let mut three = [0u8; 24];
    store::store(cabinet(3, 1, 1, 2), &given, &mut three);
    print!(rt; "tray 1")?;
    say_bytes(rt, &three[8..16])?;
    print!(rt; "tray 2")?;
    say_bytes(rt, &three[16..])
}

// The share for a host rack, worked out from a rack of (3, 1, 1, 2).
fn share(rt: &impl Print, host: u32, helper: u32, rack: &[u8]) -> io::Result<()> {
    let mut out = [0u8; 4];
    share::share(
        cabinet(3, 1, 1, 2),
        Rack::of(host),
        Rack::of(helper),
        rack,
        &mut out,
    );
    print!(rt; "share")?;
    say_bytes(rt, &out)
}

fn shares(rt: &impl Print) -> io::Result<()> {
    share(rt, 0, 1, &[0x11, 0x12, 0x11, 0x12, 0x21, 0x22, 0x21, 0x22])?;
    share(rt, 0, 2, &[0x05, 0x06, 0x09, 0x0A, 0x05, 0x06, 0x09, 0x0A])?;
    measure(rt, 255, 3, 1, 1, 2)?;
    share(rt, 1, 0, &[0x14, 0x14, 0x18, 0x18, 0x24, 0x24, 0x28, 0x28])
}

// (2, 3, 3, 1): the lost tray is the exclusive or of the other five.
fn repairing(rt: &impl Print) -> io::Result<()> {
    let host = [0x00, 0x10, 0x20];
    let helper = [0x01, 0x02, 0x04];
    let mut given = [0u8; 1];
    share::share(
        cabinet(2, 3, 3, 1),
        Rack::of(0),
        Rack::of(1),
        &helper,
        &mut given,
    );
    let mut spare = [0u8; 1];
    repair::repair(
        cabinet(2, 3, 3, 1),
        Tray::of(0),
        &[1],
        &given,
        &host,
        &mut spare,
        0,
        1,
    );
    print!(rt; "lost")?;
    say_bytes(rt, &spare)
}

// The margin in (4, 3, 8, 3).
fn margin(rt: &impl Print, states: &[u8]) -> io::Result<()> {
    print!(rt; "margin")?;
    match margin::margin(255, cabinet(4, 3, 8, 3), states) {
        LossMargin::Known(m) => println!(rt; " {m}"),
        LossMargin::Refused(e) => println!(rt; " {e}"),
    }
}

fn margins(rt: &impl Print) -> io::Result<()> {
    margin(rt, &[1, 1, 1, 1, 1, 1, 1, 0, 0, 0, 0, 0])?;
    margin(rt, &[1, 1, 1, 1, 1, 1, 1, 1, 1, 1, 1, 1])?;
    margin(rt, &[1, 1, 1, 1, 1, 1, 1, 2, 2, 2, 2, 2])
}

fn image(rt: &impl Print) -> io::Result<()> {
    let mut bytes = [0u8; 25];
    image::write(cabinet(2, 1, 1, 1), Tray::of(1), 1, 7, &[0xA7], &mut bytes);
    print!(rt; "image")?;
    say_bytes(rt, &bytes)
}

// Racks of four, modulo 257 (document 02, W10): the (5, 4, 15, 4) cabinet of source 002 has 32 symbols a tray. Tray 0 holds 256, tray 7 holds 100.
fn racks_of_four(rt: &impl Print) -> io::Result<()> {
    measure(rt, 256, 5, 4, 15, 4)?;
    measure(rt, 255, 5, 4, 15, 4)?;
    let mut given = [0u16; 480];
    kernel::fill(&mut given, 0, 32, 256);
    kernel::fill(&mut given, 224, 32, 100);
    let mut codeword = [0u16; 640];
    store257::store(cabinet(5, 4, 15, 4), &given, &mut codeword);
    print!(rt; "tray 15")?;
    say_symbols(rt, &codeword[480..488])
}

// (2, 2, 2, 1) modulo 257: the lost tray is minus the sum of the other three.
fn repairing_modulo(rt: &impl Print) -> io::Result<()> {
    let host = [0u16, 16];
    let helper = [1u16, 2];
    let mut given = [0u16; 1];
    share257::share(
        cabinet(2, 2, 2, 1),
        Rack::of(0),
        Rack::of(1),
        &helper,
        &mut given,
    );
    let mut spare = [0u16; 1];
    repair257::repair(
        cabinet(2, 2, 2, 1),
        Tray::of(0),
        &[1],
        &given,
        &host,
        &mut spare,
        0,
        1,
    );
    print!(rt; "lost")?;
    say_symbols(rt, &spare)
}

fn main(rt: HostRuntime) -> io::Result<()> {
    layouts(&rt)?;
    storing(&rt)?;
    shares(&rt)?;
    repairing(&rt)?;
    margins(&rt)?;
    image(&rt)?;
    racks_of_four(&rt)?;
    repairing_modulo(&rt)
}
