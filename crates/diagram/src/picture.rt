//! Painting a picture.

ghost use Rattle.std.specs.Prelude.{IfOk};
ghost use Rattle.diagram.specs.Trees.{IsPicture};

mod bands;
mod head;
mod legend;
mod longest;
mod marks;
mod notes;
mod phases;
mod processors;
mod ruler;
mod sleeps;
mod strands;
pub mod timeline;

use crate::class::Class;
use crate::memory::Memory;
use crate::name::{Key, Tag};
use crate::pen::{Frame, Pen};
use crate::plan::{Plan, RIGHT};
use crate::record::Record;
use crate::sheet::Sheet;
use crate::tags::Attribute;
use crate::text::Part::{At, Length, Words};
use crate::text::width_of;
use crate::waits::Wait;
use mig_base::NoMemory;
use std::alloc::Global;

/// The style sheet. `h` to `f` are also the parts of waits.
const STYLE: &str = "path{fill:none}text{font-family:sans-serif;fill:#222;font-size:10px}\
.n1{font-size:14px;font-weight:bold}.n2{font-size:11px}.n3{font-size:11px;font-weight:bold}.n4{font-weight:bold}\
.sm{font-size:8.5px;fill:#666}.mo{font-family:monospace;font-size:9px}.gm{font-family:monospace;font-size:8.5px;fill:#999}\
.en{text-anchor:end}.mi{text-anchor:middle}.wh{fill:#fff;font-size:8px;text-anchor:middle}.bl{font-size:8px;text-anchor:middle}.wl{fill:#fff;font-size:8px;paint-order:stroke;stroke:#009e73;stroke-width:3px}\
.ha{paint-order:stroke;stroke:#fff;stroke-width:3px;stroke-linejoin:round}\
.bg{fill:#fff}.st{fill:#f0eee6}.nl{fill:#e4e4e4}\
.e{fill:#bbb}.c{fill:#8ccbf0}.p{fill:#ececec;stroke:#bbb;stroke-width:.5}.u{fill:#9a9a9a}.d{fill:url(#dirty)}.o{fill:#b36b00}\
.i{fill:#009e73}.m{fill:#fff;stroke:#009e73}.a{fill:#f0e442;stroke:#222;stroke-width:.8}\
.h{fill:#d55e00}.f{fill:url(#page);stroke:#d55e00;stroke-width:.8}.r{fill:url(#request);stroke:#d55e00;stroke-width:.8}\
.s{fill:#6b2d00}.n{fill:#222}.w{fill:#fff;stroke:#d55e00}.k{fill:#cc79a7}\
.lf{stroke:#0072b2;stroke-width:1.5}.lu{stroke:#d55e00;stroke-width:2.6}.lo{stroke:#444}.lq{stroke:#0072b2;stroke-width:1.5}\
.ls{stroke:#0072b2;stroke-width:1.2;stroke-dasharray:3 2}.lx{stroke:#222;stroke-width:1.8}\
.g1{stroke:#bbb;stroke-width:.6}.g2{stroke:#888}.g3{stroke:#222;stroke-width:.8}.g4{stroke:#222;stroke-width:1.6;stroke-dasharray:5 2}\
.g5{stroke:#222;stroke-width:1.2}.g6{stroke:#999;stroke-width:.6}.do{fill:#fff;stroke:#222}.dd{fill:#222}\
.o1{fill:#fbdcc4}.o2{fill:#e69f00}.t1{stroke:#d55e00;stroke-width:1.3}.t2{stroke:#fff;stroke-width:1.6}";

/// Writes a pattern that the style sheet names: stripes on a ground.
fn pattern(pen: &mut Pen, id: &str, ground: Class, class: Class, stripes: &str) {
    let side = b"6";
    let attributes = [
        Attribute {
            key: Key::Id,
            value: id.as_bytes(),
        },
        Attribute {
            key: Key::Width,
            value: side,
        },
        Attribute {
            key: Key::Height,
            value: side,
        },
        Attribute {
            key: Key::PatternUnits,
            value: b"userSpaceOnUse",
        },
    ];
    pen.open(Tag::Pattern, &attributes);
    let frame = Frame {
        x: 0,
        y: 0,
        width: 60,
        height: 60,
    };
    pen.rectangle(ground, frame);
    pen.path(class, &[Words(stripes)]);
    pen.close();
}

/// Writes the patterns.
fn patterns(pen: &mut Pen) {
    let rising = "M-1 1L1-1M0 6L6 0M5 7L7 5";
    let falling = "M-1 5L1 7M0 0L6 6M5-1L7 1";
    pen.open(Tag::Defs, &[]);
    let (strong, pale) = (Class::StrongGround, Class::PaleGround);
    pattern(pen, "dirty", strong, Class::WhiteStripes, rising);
    pattern(pen, "request", Class::Ground, Class::Stripes, rising);
    pattern(pen, "page", pale, Class::Stripes, falling);
    pen.close();
}

/// A sheet of a size.
fn new_sheet(memory: &mut Memory, width: u64, height: u64) -> Result<Sheet, NoMemory> {
    let view = memory.text(&[Words("0 0 "), At((width, height))]);
    let across = memory.text(&[Length(width)]);
    let down = memory.text(&[Length(height)]);
    let attributes = [
        Attribute {
            key: Key::Namespace,
            value: b"http://www.w3.org/2000/svg",
        },
        Attribute {
            key: Key::ViewBox,
            value: view.as_bytes(),
        },
        Attribute {
            key: Key::Width,
            value: across.as_bytes(),
        },
        Attribute {
            key: Key::Height,
            value: down.as_bytes(),
        },
        Attribute {
            key: Key::Role,
            value: b"img",
        },
    ];
    Sheet::new(memory.alloc, &attributes)
}

/// Writes what lies behind all bands.
fn ground(pen: &mut Pen, name: &str, width: u64, height: u64) {
    pen.element(Tag::Title, name.as_bytes());
    pen.element(Tag::Style, STYLE.as_bytes());
    patterns(pen);
    let frame = Frame {
        x: 0,
        y: 0,
        width,
        height,
    };
    pen.rectangle(Class::Ground, frame);
}

/// All that is drawn, and where it is.
struct Layout {
    plan: Plan,
    labels: marks::Labels,
    texts: Vec<ruler::Text>,
    sleeps: Vec<sleeps::Sleep>,
    items: legend::Items,
    waits: Vec<Wait>,
    /// Where the legend begins, and where the list of waits.
    foot: u64,
    list: u64,
    width: u64,
    height: u64,
}

// As that of a pen.
impl Drop for Layout {
    fn drop(self) {
        let Layout {
            plan: _plan,
            labels: _labels,
            texts: _texts,
            sleeps: _sleeps,
            items: _items,
            waits: _waits,
            foot: _foot,
            list: _list,
            width: _width,
            height: _height,
        } = self;
    }
}

/// The layout of the picture of a record.
fn lay_out(memory: &mut Memory, record: &Record, name: &str) -> Layout {
    let mut plan = Plan::new(memory, record);
    let labels = marks::find_labels(memory, &plan, record);
    plan.place(700u64.saturating_add(labels.height));
    let texts = ruler::find_texts(memory, &plan, record);
    let sleeps = sleeps::find_sleeps(memory, &plan, record);
    let items = legend::find_items(memory, &plan, record, &sleeps);
    let waits = longest::longest_of(memory, &plan);
    let foot = plan
        .bottom
        .saturating_add(ruler::height(&texts))
        .saturating_add(100);
    let list = foot.saturating_add(items.height);
    let title = width_of(name.len(), 140).saturating_add(200);
    let width = plan
        .right()
        .saturating_add(RIGHT)
        .max(items.width)
        .max(labels.right)
        .max(title);
    let height = list.saturating_add(longest::height(&waits));
    Layout {
        plan,
        labels,
        texts,
        sleeps,
        items,
        waits,
        foot,
        list,
        width,
        height,
    }
}

/// Draws a layout.
fn draw(pen: &mut Pen, layout: &Layout, record: &Record, name: &str) {
    let plan = &layout.plan;
    ground(pen, name, layout.width, layout.height);
    head::head(pen, plan, record, name);
    marks::grounds(pen, plan, record);
    processors::lanes(pen, plan, record);
    bands::nodes(pen, plan, record);
    strands::wires(pen, plan, record);
    marks::marks(pen, plan, &layout.labels);
    // Words come after the lines that would cross them, and so do bars and dots that have words.
    processors::bars(pen, plan, record);
    for sleep in &layout.sleeps {
        sleeps::draw_sleep(pen, sleep);
    }
    bands::ages(pen, plan, record);
    phases::phases(pen, plan, record, &layout.labels);
    processors::wait_labels(pen, plan);
    bands::move_labels(pen, plan, record);
    strands::wire_labels(pen, plan, record);
    notes::write_notes(pen, plan, record);
    ruler::ruler(pen, plan, record, &layout.texts);
    legend::legend(pen, &layout.items, layout.foot);
    longest::longest(pen, record, &layout.waits, layout.list);
}

/// Paints the picture of a record, which is named so.
pub fn paint(alloc: Global, record: &Record, name: &str) -> Result<Vec<u8>, NoMemory>
    ensures { IfOk result (λ picture. IsPicture picture.items) }
{
    let mut memory = Memory { alloc, whole: true };
    let layout = lay_out(&mut memory, record, name);
    let sheet = new_sheet(&mut memory, layout.width, layout.height)?;
    let mut pen = Pen::new(memory, sheet);
    draw(&mut pen, &layout, record, name);
    pen.finish()
}
