// How a turn ended, and what it leaves of the stack and the clock, in a line.
use control::performed::Flow;
use pen::Pen;

fn left(pen: &mut Pen, depth: usize, clock: u64) {
    pen.counted(b" depth ", depth as u64);
    pen.counted(b" clock ", clock);
    pen.byte(b'\n');
}

fn ended(pen: &mut Pen, flow: Flow) {
    match flow {
        Flow::Continue => pen.text(b"continue"),
        Flow::ReturnOk => pen.text(b"ok"),
        Flow::NoMoreSolutions => pen.text(b"none"),
        Flow::QuantumExceeded => pen.text(b"again"),
        Flow::NegativeCycle => pen.text(b"negcycle"),
        Flow::Stop(n) => pen.counted(b"stop ", n as u64),
    }
}

pub(crate) fn turned(pen: &mut Pen, flow: Flow, depth: usize, clock: u64) {
    ended(pen, flow);
    left(pen, depth, clock);
}

pub(crate) fn cut(pen: &mut Pen, depth: usize, clock: u64) {
    pen.text(b"cut");
    left(pen, depth, clock);
}
