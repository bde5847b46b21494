// The heading, the lines and the totals.
ghost use Rattle.std.specs.Prelude.{◌≡◌, ◌++◌, ◌+◌, ◌*◌, ◌≤◌, length};
ghost use Rattle.night.specs.Lines.{most_labels};
ghost use Rattle.report.specs.Text.{Placed};
ghost use Rattle.report.specs.Printed.{top_text, line_text, lines_text, totals_text, printed, most_text};

use crate::digits::hex_text;
use crate::page::Page;
use night::{Line, Night, Totals};

impl Page {
    // The highest accepted height, or `-` where none was accepted.
    #[tactic(auto, unfolding(crate::specs::Printed::top_text))]
    fn put_top(&mut self, accepted: u64, top: u64)
        requires { length self.old + 21 ≤ most_text }
        ensures { self.new ≡ self.old ++ top_text accepted top }
    {
        if accepted == 0 {
            self.put(b" -");
        } else {
            self.put_named(b" ", top);
        }
    }

    fn put_line(&mut self, line: Line)
        requires { length self.old + 96 ≤ most_text }
        ensures text { self.new ≡ self.old ++ line_text line }
        ensures upper_bound { length self.new ≤ length self.old + 96 }
    {
        self.put(&hex_text(line.label));
        self.put_named(b" ", line.accepted);
        self.put_named(b" ", line.refused);
        self.put_top(line.accepted, line.top);
        self.put(b"\n");
    }

    // Lines, in their order.
    fn put_lines(&mut self, lines: &[Line])
        requires { length self.old + 96 * length lines.now ≤ most_text }
        ensures text { self.new ≡ self.old ++ lines_text lines.now }
        ensures upper_bound { length self.new ≤ length self.old + 96 * length lines.now }
    {
        for line in lines {
            self.put_line(*line);
        }
    }

    fn put_totals(&mut self, totals: Totals)
        requires { length self.old + 110 ≤ most_text }
        ensures { self.new ≡ self.old ++ totals_text totals }
    {
        self.put_named(b"blocks ", totals.blocks);
        self.put_named(b" racks ", totals.racks);
        self.put_named(b" over ", totals.over);
        self.put_named(b" damaged ", totals.damaged);
        self.put(b"\n");
    }
}

// The whole report at the front of an area; answers how many bytes it has.
pub fn print(night: &Night, area: &mut [u8]) -> usize
    requires { (night.now.known ≤ most_labels) × (most_text ≤ length area.old) }
    ensures placed { Placed result 0 area.old area.new (printed night.now) }
    ensures upper_bound { result ≤ most_text }
{
    let mut page = Page::new();
    page.put(b"label accepted refused top\n");
    page.put_lines(&night.lines[..night.known]);
    page.put_totals(night.totals);
    page.write(area)
}
