//! Scripts of calls, by their names.

use crate::answers::{push_answer, push_text};
use crate::calls::{Calls, ask};
use crate::tally::Tally;
use std::alloc::Global;

/// Lines by their name.
#[derive(Drop)]
struct Named {
    name: String,
    lines: String,
}

/// The scripts so far, and each line with what it came to.
#[derive(Drop)]
pub struct Scripts {
    alloc: Global,
    named: Vec<Named>,
    is_open: bool,
    written: Vec<u8>,
}

// The line with a number in the place of each $.
fn with_number(alloc: Global, line: &str, number: u64) -> Option<String> {
    let number = format!(in alloc; "{number}").ok()?;
    let mut text = String::new(alloc);
    for (place, part) in line.split('$').enumerate() {
        if place > 0 {
            text.push_str(&number).ok()?;
        }
        text.push_str(part).ok()?;
    }
    Some(text)
}

impl Scripts {
    /// No script, and nothing written.
    pub fn new(alloc: Global) -> Scripts {
        Scripts {
            alloc,
            named: Vec::new(alloc),
            is_open: false,
            written: Vec::new(alloc),
        }
    }

    /// Each line, and what it came to.
    pub fn written(&self) -> &[u8] {
        &self.written
    }

    /// Does what a line asks for, and appends what it came to: it is a call where it begins with a conversation's number.
    pub fn tell<C: Calls>(&self, core: &mut C, line: &str, out: &mut Vec<u8>) -> Option<()> {
        let (first, rest) = line.split_once(' ').unwrap_or((line, ""));
        match first.parse::<u64>() {
            Ok(conversation) => {
                let (verb, rest) = rest.split_once(' ').unwrap_or((rest, ""));
                let answer = ask(self.alloc, core, conversation, verb, rest)?;
                push_answer(self.alloc, out, &answer)
            }
            Err(_) => core.do_other(self, first, rest, out),
        }
    }

    /// The lines of the script of a name.
    pub fn lines(&self, name: &str) -> Option<&str> {
        for it in &self.named {
            if it.name.as_str() == name {
                return Some(it.lines.as_str());
            }
        }
        None
    }

    fn tell_lines<C: Calls>(
        &self,
        core: &mut C,
        lines: &str,
        number: u64,
        out: &mut Vec<u8>,
    ) -> Option<()> {
        for line in lines.lines() {
            if !out.is_empty() {
                push_text(out, "; ")?;
            }
            self.tell(core, &with_number(self.alloc, line, number)?, out)?;
        }
        Some(())
    }

    /// Does what each line asks for, of which : begins a script, with its name, and an empty line ends it. None where a line asks for
    /// nothing that there is, and without memory.
    pub fn follow<C: Calls>(&mut self, core: &mut C, text: &str) -> Option<()> {
        for line in text.lines() {
            push_text(&mut self.written, line)?;
            push_text(&mut self.written, "\n")?;
            self.take(core, line)?;
        }
        Some(())
    }

    fn take<C: Calls>(&mut self, core: &mut C, line: &str) -> Option<()> {
        if line.is_empty() {
            self.is_open = false;
            return Some(());
        }
        if self.is_open {
            return self.lay(line);
        }
        match line.strip_prefix(':') {
            Some(name) => self.begin(name),
            None => self.do_line(core, line),
        }
    }

    fn begin(&mut self, name: &str) -> Option<()> {
        let name = String::from_str(self.alloc, name).ok()?;
        let lines = String::new(self.alloc);
        self.named.push(Named { name, lines }).ok()?;
        self.is_open = true;
        Some(())
    }

    fn lay(&mut self, line: &str) -> Option<()> {
        let Some(named) = self.named.last_mut() else {
            return None;
        };
        named.lines.push_str(line).ok()?;
        named.lines.push('\n').ok()
    }

    // `play` plays scripts, one after the other, and `each` one for each number from the first up to the second, which is not taken. #
    // stands in front of a remark.
    fn do_line<C: Calls>(&mut self, core: &mut C, line: &str) -> Option<()> {
        let (verb, rest) = line.split_once(' ').unwrap_or((line, ""));
        match verb {
            "#" => Some(()),
            "each" => self.tell_each(core, rest),
            _ => {
                let told = self.told_of(core, verb, line, rest)?;
                push_text(&mut self.written, "  ")?;
                self.written.extend_from_slice(&told).ok()?;
                push_text(&mut self.written, "\n")
            }
        }
    }

    fn told_of<C: Calls>(
        &self,
        core: &mut C,
        verb: &str,
        line: &str,
        rest: &str,
    ) -> Option<Vec<u8>> {
        if verb == "play" {
            return self.told(core, rest, 0);
        }
        let mut out = Vec::new(self.alloc);
        self.tell(core, line, &mut out)?;
        Some(out)
    }

    // What scripts of these names are told, with a number.
    fn told<C: Calls>(&self, core: &mut C, names: &str, number: u64) -> Option<Vec<u8>> {
        let mut out = Vec::new(self.alloc);
        for name in names.split_ascii_whitespace() {
            self.tell_lines(core, self.lines(name)?, number, &mut out)?;
        }
        Some(out)
    }

    fn tell_each<C: Calls>(&mut self, core: &mut C, rest: &str) -> Option<()> {
        let (from, rest) = rest.split_once(' ')?;
        let (to, names) = rest.split_once(' ')?;
        let mut tally = Tally::new(self.alloc);
        for number in from.parse::<u64>().ok()?..to.parse::<u64>().ok()? {
            let told = self.told(core, names, number)?;
            tally.add(told, &mut self.written)?;
        }
        tally.tell(&mut self.written)
    }
}
