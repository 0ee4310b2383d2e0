//! Scripts.
use std::alloc::Global;
use wf_codec::Message;
use wf_farm::{Carrier, CarrierFault, Copies};
use wf_play::run_script;
use wf_stream::Stream;
use wf_test_table::{Answered, CaseInput, Transcript};

/// What the script writes with its messages brought by the carrier, and its error line after that,
/// where it has one.
pub(crate) fn script<C: Carrier>(
    asked: CaseInput<'_>,
    carrier: &mut C,
    answer: &mut Transcript,
) -> Answered {
    let mut source = Stream::new(asked.input);
    let mut sink = Stream::new(answer.target());
    let played = run_script(asked.alloc, carrier, &mut source, &mut sink);
    drop(sink);
    if let Err(fault) = played {
        answer.value(fault);
        answer.line("");
    }
    Ok(())
}

/// Copies messages, and fails at one of its calls.
#[derive(Drop)]
struct Losing {
    calls: u32,
    failing: u32,
}

impl Losing {
    /// Whether this call fails.
    fn fails(&mut self) -> bool {
        let fails = self.calls == self.failing;
        self.calls = self.calls.saturating_add(1);
        fails
    }
}

impl Carrier for Losing {
    fn carry(&mut self, alloc: Global, message: &Message) -> Result<Message, CarrierFault> {
        if self.fails() {
            return Err(CarrierFault::Lost);
        }
        Copies.carry(alloc, message)
    }

    fn cut(
        &mut self,
        _alloc: Global,
        _message: &Message,
        _bytes: usize,
    ) -> Result<(), CarrierFault> {
        if self.fails() {
            return Err(CarrierFault::Lost);
        }
        Ok(())
    }
}

/// Copies messages, and cuts one off after so many bytes, and after no other number.
#[derive(Drop)]
struct Cutting {
    bytes: usize,
}

impl Carrier for Cutting {
    fn carry(&mut self, alloc: Global, message: &Message) -> Result<Message, CarrierFault> {
        Copies.carry(alloc, message)
    }

    fn cut(
        &mut self,
        _alloc: Global,
        _message: &Message,
        bytes: usize,
    ) -> Result<(), CarrierFault> {
        if bytes == self.bytes {
            Ok(())
        } else {
            Err(CarrierFault::Lost)
        }
    }
}

/// `script_cut N`: what the script writes by a carrier that cuts messages off after N bytes alone.
pub(crate) fn script_cut(mut asked: CaseInput<'_>, answer: &mut Transcript) -> Answered {
    let bytes = asked.words.count()?;
    script(asked, &mut Cutting { bytes }, answer)
}

/// `script_losing N`: what the script writes by a carrier whose call N, counted from 0, fails.
pub(crate) fn script_losing(mut asked: CaseInput<'_>, answer: &mut Transcript) -> Answered {
    let failing = asked.words.number()?;
    script(asked, &mut Losing { calls: 0, failing }, answer)
}
