//! What all steps share: the text of the steps, their answers, memory, what is asked, and the texts and writers.

use crate::answers::done;
use crate::asked::Asked;
use crate::devices::{Given, WriterSetup};
use crate::failing::Ration;
use crate::words::{Words, number};
use hex::FromHex;
use sabr_plan::{parse_time, time_text};
use std::alloc::Global;
use std::str::{self, Lines};

/// What all steps share.
#[derive(Drop)]
pub struct Harness<'t> {
    pub rt: &'t HostRuntime,
    pub alloc: Global,
    pub ration: &'t Ration,
    lines: Lines<'t>,
    answers: String,
    pub asked: Asked,
    pub plan: Given,
    pub session: Given,
    pub out: WriterSetup,
    pub kept: WriterSetup,
    pub err: WriterSetup,
}

impl<'t> Harness<'t> {
    /// Begins with the first step.
    pub fn new(rt: &'t HostRuntime, ration: &'t Ration, text: &'t str) -> Harness<'t> {
        let alloc = rt.alloc();
        Harness {
            rt,
            alloc,
            ration,
            lines: text.lines(),
            answers: String::new(alloc),
            asked: Asked::new(),
            plan: Given::new(alloc),
            session: Given::new(alloc),
            out: WriterSetup::ample(),
            kept: WriterSetup::ample(),
            err: WriterSetup::ample(),
        }
    }

    /// All answers.
    pub fn answers(&self) -> &[u8] {
        self.answers.as_str().as_bytes()
    }

    /// Takes the next step: the word that names it, and its other words.
    pub fn next(&mut self) -> Option<(&'t str, Words<'t>)> {
        let mut words = self.lines.next()?.split_whitespace();
        let name = words.next().unwrap_or("");
        Some((name, words))
    }

    /// Answers a step.
    pub fn answer(&mut self, answer: Option<String>) {
        match answer {
            Some(text) => {
                let _ = self.answers.push_str(text.as_str());
            }
            None => {
                let _ = self.answers.push_str("?");
            }
        }
        let _ = self.answers.push_str("\n");
    }

    /// Does a step that needs no plan. `None` if it is another step.
    pub fn step(&mut self, name: &str, words: &mut Words<'_>) -> Option<String> {
        match name {
            "refuse" => self.refuse(number(words)),
            "requests" => format!(in self.alloc; "{}", self.ration.requests()).ok(),
            "ask" => self.ask(words),
            "time" => self.time(number(words)),
            "parse" => self.parsed(words.next()),
            _ => self.set(name, words),
        }
    }

    /// Refuses a request for memory.
    fn refuse(&self, request: Option<u64>) -> Option<String> {
        self.ration.refuse(request?);
        done(self.alloc)
    }

    /// Takes a request.
    fn ask(&mut self, words: &mut Words<'_>) -> Option<String> {
        self.asked = Asked::taken(words)?;
        self.asked.answer(self.alloc)
    }

    /// The spelling of a second.
    fn time(&self, second: Option<u64>) -> Option<String> {
        let second = second?;
        if second > 253402300799 {
            return None;
        }
        let spelled = time_text(second);
        String::from_str(self.alloc, str::from_utf8(&spelled).ok()?).ok()
    }

    /// The second of a spelling.
    fn parsed(&self, text: Option<&str>) -> Option<String> {
        match parse_time(text?.as_bytes()) {
            Some(second) => format!(in self.alloc; "{second}").ok(),
            None => String::from_str(self.alloc, "none").ok(),
        }
    }

    /// Takes a text, or the way in which a text is given or taken.
    fn set(&mut self, name: &str, words: &mut Words<'_>) -> Option<String> {
        let taken = match name {
            "plan-text" => self.plan.take_text(self.alloc, words),
            "session-text" => self.session.take_text(self.alloc, words),
            "plan-given" => self.plan.take_way(words),
            "session-given" => self.session.take_way(words),
            "out" => self.out.take(words),
            "kept" => self.kept.take(words),
            "err" => self.err.take(words),
            _ => None,
        };
        taken?;
        done(self.alloc)
    }
}

/// Takes bytes, in hexadecimal digits. A missing word stands for no bytes.
pub fn decoded(alloc: Global, words: &mut Words<'_>) -> Option<Vec<u8>> {
    hex::decode(alloc, words.next().unwrap_or("")).ok()
}
