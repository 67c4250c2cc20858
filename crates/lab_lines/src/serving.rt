// The lines of the lab, one after another. A `link` line makes a link, and the lines up to the next one are asked of it.
ghost use Rattle.std.specs.Prelude.{◌≡◌, IfOk};
ghost use Rattle.text.specs.Lines.{lines_of};
ghost use Rattle.lab_lines.specs.Sheets.{Fewer};

use crate::calls::obey;
use crate::line::parse::parse_line;
use crate::line::{Line, Making, Pair};
use crate::reply::Reply;
use channel::Channel;
use commands::{Command, Commands};
use link::Link;
use lossy::Loss;
use queues::{DelayLine, Ring};
use readings::{Reading, Readings};
use records::RecordKind;
use relays::Relay;
use script::Kind;
use std::alloc::Global;
use std::fmt;
use text::lines::Lines;

// A line for each line. An `Err` says that there is no memory.
pub fn answers(heap: Global, text: &[u8]) -> Result<String, fmt::Error> {
    let mut sheet = Sheet {
        lines: Lines::new(text),
        page: String::new(heap),
    };
    let mut next = sheet.skip()?;
    while let Some(making) = next {
        next = sheet.by_pair(making)?;
    }
    Ok(sheet.page)
}

// The lines that are left, and the page of the answers so far.
#[derive(Drop)]
struct Sheet<'a> {
    lines: Lines<'a>,
    page: String,
}

impl Sheet<'_> {
    // The lines before the first `link` line, which no link answers, and the link that it asks for.
    fn skip(&mut self) -> Result<Option<Making>, fmt::Error> {
        // the sheet is written to in between, so that no `for` can hold its lines
        while let Some(line) = self.lines.next() {
            if let Some(Line::Link(making)) = parse_line(line) {
                return Ok(Some(making));
            }
            self.add(Reply::Unknown)?;
        }
        Ok(None)
    }

    fn add(&mut self, reply: Reply) -> fmt::Result
        ensures { lines_of self.new.lines ≡ lines_of self.old.lines }
    {
        writeln!(self.page, "{reply}")?;
        Ok(())
    }

    // By the pair of channels; up to the next `link` line, and the link that it asks for.
    fn by_pair(&mut self, making: Making) -> Result<Option<Making>, fmt::Error>
        ensures fewer { IfOk result (λ next. Fewer next self.old.lines self.new.lines) }
    {
        let s = making.sizes;
        match making.pair {
            Pair::Losses => self.by_kind(
                making,
                Loss::new(s.x, Ring::new(s.a)),
                Loss::new(s.y, Ring::new(s.b)),
            ),
            Pair::Rings => self.by_kind(making, Ring::new(s.a), Ring::new(s.b)),
            Pair::DelayLines => self.by_kind(
                making,
                DelayLine::new(s.a, s.c),
                DelayLine::new(s.b, s.d),
            ),
            Pair::Relays => {
                let upper = Relay::new(Ring::new(s.a), DelayLine::new(s.b, s.c));
                let forward = Relay::new(upper, Loss::new(s.x, Ring::new(s.d)));
                let back = Relay::new(Ring::new(s.a), Ring::new(s.b));
                self.by_kind(making, forward, back)
            }
            Pair::LossOverRelay => {
                let upper = Loss::new(s.y, DelayLine::new(s.a, s.c));
                let lower = Relay::new(Ring::new(s.b), DelayLine::new(s.a, s.d));
                let forward = Loss::new(s.x, Relay::new(upper, lower));
                let back = Loss::new(s.y, DelayLine::new(s.b, s.d));
                self.by_kind(making, forward, back)
            }
        }
    }

    // By the record kind, over any channels.
    fn by_kind<F: Channel + Drop, B: Channel + Drop>(
        &mut self,
        making: Making,
        forward: F,
        back: B,
    ) -> Result<Option<Making>, fmt::Error>
        ensures fewer { IfOk result (λ next. Fewer next self.old.lines self.new.lines) }
    {
        let labels = making.labels;
        match making.kind {
            Kind::Commands => self.serve(Link::new(
                Commands,
                labels,
                forward,
                back,
                Command::stop(),
            )),
            Kind::Readings => self.serve(Link::new(
                Readings,
                labels,
                forward,
                back,
                Reading::at_rest(),
            )),
        }
    }

    // The check of a link, and the lines that are asked of it.
    fn serve<F: Channel + Drop, B: Channel + Drop, R: RecordKind + Drop>(
        &mut self,
        mut link: Link<F, B, R>,
    ) -> Result<Option<Making>, fmt::Error>
        ensures fewer { IfOk result (λ next. Fewer next self.old.lines self.new.lines) }
    {
        self.add(Reply::One("link", link.check()))?;
        // as above
        while let Some(line) = self.lines.next() {
            match parse_line(line) {
                Some(Line::Link(making)) => return Ok(Some(making)),
                Some(Line::Order(order)) => self.add(obey(&mut link, order))?,
                None => self.add(Reply::Unknown)?,
            }
        }
        Ok(None)
    }
}
