// The lines of the text, each put behind the one before it. Room is asked for by clauses: how much is left
// depends on all that stands on the page.
ghost use Rattle.std.specs.Prelude.{◌≡◌, ◌+◌, ◌*◌, ◌≤◌, ◌<◌, length};
ghost use Rattle.plan.specs.Reading.{Held};
ghost use Rattle.state.specs.Network.{devices};
ghost use Rattle.bench.specs.Trials.{Finds};
ghost use Rattle.text.specs.Page.{Writes};
ghost use Rattle.report.specs.Report.{field, line as text_of};
ghost use Rattle.report.specs.Inner.Pieces.{front, line_at, longest_lines, PutsLines};

use bench::FOUND;
use plan::Plan;
use text::Page;

// What a line says of a device and an identifier: what the request was answered with, as a number of
// the table, the rounds, and the devices that hold the identifier then.
#[derive(Clone, Copy, Debug, PartialEq, Eq)]
struct Line {
    device: u32,
    identifier: u32,
    number: u32,
    rounds: u32,
    held: u32,
}

// What stands for the rounds, of which there are n, by what the request was answered with.
fn put_field(page: &mut Page, number: u32, n: u32)
    requires { page.old.at + length (field number n) ≤ length page.old.area.now }
    ensures { Writes (field number n) page.old page.new }
{
    if number == 0 {
        return page.number(n);
    }
    if number == 12 {
        return page.word(b"-");
    }
    page.word(b"r");
    page.number(number);
}

// The first three fields of a line.
fn put_front(page: &mut Page, line: Line)
    requires { page.old.at + length (front line.device line.identifier line.number line.rounds) ≤ length page.old.area.now }
    ensures { Writes (front line.device line.identifier line.number line.rounds) page.old page.new }
{
    page.then(line.device, b" ");
    page.then(line.identifier, b" ");
    put_field(page, line.number, line.rounds);
}

// A line.
fn put_line(page: &mut Page, line: Line)
    requires { page.old.at + length (text_of line.device line.identifier line.number line.rounds line.held) ≤ length page.old.area.now }
    ensures { Writes (text_of line.device line.identifier line.number line.rounds line.held) page.old page.new }
{
    put_front(page, line);
    page.word(b" ");
    page.then(line.held, b"\n");
}

// The line of place i, which is device i / 32 and identifier i % 32, by what is found of it.
fn put_place(found: &[u32; FOUND], i: usize, page: &mut Page)
    requires { (i < 1024) × (page.old.at + length (line_at found.now i) ≤ length page.old.area.now) }
    ensures { Writes (line_at found.now i) page.old page.new }
{
    let line = Line {
        device: (i / 32) as u32,
        identifier: (i % 32) as u32,
        number: found[3 * i],
        rounds: found[3 * i + 1],
        held: found[3 * i + 2],
    };
    put_line(page, line);
}

// All lines, by device then identifier; a place has one where its device is a source of its
// identifier. The place is the device and the identifier as well, so it is counted.
pub(crate) fn put_lines(plan: &Plan, found: &[u32; FOUND], page: &mut Page)
    requires { Held plan.now × Finds plan.now found.now × (page.old.at + longest_lines ≤ length page.old.area.now) }
    ensures { PutsLines plan.now (32 * devices plan.now) page.old page.new }
{
    for i in 0..32 * plan.core.devices {
        if bits::get(plan.core.source[i / 32], (i % 32) as u32) == 1 {
            put_place(found, i, page);
        }
    }
}
