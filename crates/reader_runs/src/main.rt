// Reads each text that an argument names, and prints what reading it gives: the refusal and its place, or the counts and the points.
#![tactic(auto)]

use blocks::{POINT_SPACE, PointEntry};
use files::{Source, Unread};
use letters::Letter;
use std::fs::File;
use syntax::{CompiledMacro, LONGEST_TEXT};

// One byte more than a macro may have.
const MOST_READ: usize = LONGEST_TEXT + 1;

// The points of a macro are printed if there are no more.
const FEW_POINTS: u16 = 12;

fn number(rt: &HostRuntime, n: u64) {
    files::print(rt, b" ");
    files::print_number(rt, n);
}

fn print_letter(rt: &HostRuntime, letter: Letter) {
    match letter {
        Letter::Copy { target, source } => {
            files::print(rt, b" copy");
            number(rt, target as u64);
            number(rt, source as u64);
        }
        Letter::Apply {
            target,
            function,
            first,
            second,
        } => {
            files::print(rt, b" apply");
            number(rt, target as u64);
            number(rt, function as u64);
            number(rt, first as u64);
            number(rt, second as u64);
        }
        Letter::Equal { first, second } => {
            files::print(rt, b" equal");
            number(rt, first as u64);
            number(rt, second as u64);
        }
        Letter::Unequal { first, second } => {
            files::print(rt, b" unequal");
            number(rt, first as u64);
            number(rt, second as u64);
        }
    }
}

fn print_point(rt: &HostRuntime, point: PointEntry) {
    files::print(rt, b" |");
    number(rt, u64::from(u8::from(point.kind)));
    let letter = point.letter;
    print_letter(rt, letter);
    number(rt, point.first as u64);
    number(rt, point.second as u64);
}

// The points, if they are few.
fn print_points(rt: &HostRuntime, points: [PointEntry; POINT_SPACE], count: u16) {
    if count <= FEW_POINTS {
        for point in &points[..count as usize] {
            print_point(rt, *point);
        }
    }
}

fn print_macro(rt: &HostRuntime, program: CompiledMacro) {
    let header = program.header;
    files::print(rt, b": read");
    number(rt, header.registers as u64);
    number(rt, header.functions as u64);
    number(rt, header.binary as u64);
    number(rt, program.count as u64);
    let points = program.points;
    print_points(rt, points, program.count);
}

fn report(rt: &HostRuntime, name: &[u8], text: &[u8]) {
    files::print(rt, name);
    let answer = syntax::read(text);
    if answer.refusal == 0 {
        let program = answer.program;
        print_macro(rt, program);
    } else {
        files::print(rt, b": refused ");
        files::print_number(rt, answer.refusal as u64);
        files::print(rt, b" at ");
        files::print_number(rt, answer.place as u64);
    }
    files::print(rt, b"\n");
}

fn read(rt: &HostRuntime, file: File, name: &[u8]) {
    let mut source = Source::new(file);
    let mut text = [0; MOST_READ];
    match files::read(&mut source, &mut text).known(&text) {
        Ok(known) => report(rt, name, known),
        Err(Unread) => source.tell(rt, name),
    }
}

// Each program has its own: every line names the crate that answers, and with closures for them no line would be left out.
fn main(rt: HostRuntime) {
    files::open_arguments(&rt, |file, name| read(&rt, file, name));
}
