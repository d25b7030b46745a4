// One request is read part by part: its head, and then its body, or chunks and trailers.
ghost use Rattle.std.specs.Prelude.{◌≡◌, ◌<◌, drop};
ghost use Rattle.sb_http.specs.Stages.{whole};
ghost use Rattle.sb_http.specs.Buffers.{left_by, left_of, StepAnswers, SettleAnswers};

use crate::buffer::Buffer;
use crate::fault::HttpFault;
use crate::fields::Framing;
use crate::judge::{Judged, LineJudged, judge_head, judge_line, reread};
use crate::parts::{part_of, pull, read_end, rest_of};
use crate::places::{Next, Shape, Step};
use crate::read::read_trailers;

impl Buffer {
    // A request whose body is there is whole at once; else its head isn't read again before that.
    fn step_head(&mut self) -> Result<Step, HttpFault>
        requires { self.old.next ≡ Next.Head }
        ensures { StepAnswers (whole (drop self.old.start self.old.bytes.items)) result self.new }
    {
        match judge_head(rest_of(&self.bytes, self.start), &mut self.spans)? {
            Judged::Waits => Ok(Step::Waits),
            Judged::Sized(head, size) => {
                let body = self.start + head.len;
                if size <= self.bytes.len() - body {
                    return Ok(Step::Whole(Shape {
                        head,
                        start: self.start,
                        body,
                        end: body + size,
                        rest: body + size,
                    }));
                }
                self.body = body;
                self.done = body;
                self.raw = body;
                self.to_come = size;
                self.next = Next::Body;
                Ok(Step::Goes)
            }
            Judged::Chunked(head) => {
                self.body = self.start + head.len;
                self.done = self.body;
                self.raw = self.body;
                self.to_come = 0;
                self.next = Next::Line;
                Ok(Step::Goes)
            }
        }
    }

    fn step_body(&mut self) -> Result<Step, HttpFault>
        requires { self.old.next ≡ Next.Body }
        ensures { StepAnswers (left_by Next.Body self.old) result self.new }
    {
        if self.bytes.len() - self.raw < self.to_come {
            return Ok(Step::Waits);
        }
        let end = self.raw + self.to_come;
        let framing = Framing::Sized(self.to_come as u64);
        // The text was read as such a head before, so it is one.
        match reread(
            part_of(&self.bytes, self.start, self.body),
            &mut self.spans,
            framing,
        ) {
            Some(head) => Ok(Step::Whole(Shape {
                head,
                start: self.start,
                body: self.body,
                end,
                rest: end,
            })),
            None => Err(HttpFault::BadHead),
        }
    }

    fn step_line(&mut self) -> Result<Step, HttpFault>
        requires { self.old.next ≡ Next.Line }
        ensures { StepAnswers (left_by Next.Line self.old) result self.new }
    {
        match judge_line(rest_of(&self.bytes, self.raw), self.done - self.body)? {
            LineJudged::Waits => Ok(Step::Waits),
            LineJudged::Last(len) => {
                self.raw += len;
                self.next = Next::Trailers;
                Ok(Step::Goes)
            }
            LineJudged::Chunk(len, size) => {
                self.raw += len;
                self.to_come = size;
                self.next = Next::Data;
                Ok(Step::Goes)
            }
        }
    }

    fn step_data(&mut self) -> Result<Step, HttpFault>
        requires next { self.old.next ≡ Next.Data }
        requires some { 0 < self.old.to_come }
        ensures { StepAnswers (left_by Next.Data self.old) result self.new }
    {
        let n = self.to_come.min(self.bytes.len() - self.raw);
        if n == 0 {
            return Ok(Step::Waits);
        }
        pull(&mut self.bytes, self.done, self.raw, n);
        self.done += n;
        self.raw += n;
        self.to_come -= n;
        Ok(Step::Goes)
    }

    fn step_end(&mut self) -> Result<Step, HttpFault>
        requires next { self.old.next ≡ Next.Data }
        requires none { self.old.to_come ≡ 0 }
        ensures { StepAnswers (left_by Next.Data self.old) result self.new }
    {
        if read_end(rest_of(&self.bytes, self.raw))? {
            self.raw += 2;
            self.next = Next::Line;
            Ok(Step::Goes)
        } else {
            Ok(Step::Waits)
        }
    }

    fn step_trailers(&mut self) -> Result<Step, HttpFault>
        requires { self.old.next ≡ Next.Trailers }
        ensures { StepAnswers (left_by Next.Trailers self.old) result self.new }
    {
        let Some(len) = read_trailers(rest_of(&self.bytes, self.raw), &mut self.spans)? else {
            return Ok(Step::Waits);
        };
        // The trailers took the place of the head's spans. Its text was read as such a head before.
        let text = part_of(&self.bytes, self.start, self.body);
        match reread(text, &mut self.spans, Framing::Chunked) {
            Some(head) => Ok(Step::Whole(Shape {
                head,
                start: self.start,
                body: self.body,
                end: self.done,
                rest: self.raw + len,
            })),
            None => Err(HttpFault::BadHead),
        }
    }

    // Reads the next part of the request under way.
    fn step(&mut self) -> Result<Step, HttpFault>
        ensures { StepAnswers (left_of self.old) result self.new }
    {
        match self.next {
            Next::Head => self.step_head(),
            Next::Body => self.step_body(),
            Next::Line => self.step_line(),
            Next::Data => {
                if self.to_come == 0 {
                    self.step_end()
                } else {
                    self.step_data()
                }
            }
            Next::Trailers => self.step_trailers(),
        }
    }

    /// Reads on as far as it goes, and leaves a whole request where it is.
    pub(crate) fn settle(&mut self) -> Result<Option<Shape>, HttpFault>
        ensures { SettleAnswers (left_of self.old) result self.new }
    {
        'parts: loop {
            match self.step()? {
                Step::Goes => {}
                Step::Waits => return Ok(None),
                Step::Whole(shape) => return Ok(Some(shape)),
            }
        }
    }
}
