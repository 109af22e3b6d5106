use crate::*;

const ROW: [u32; 8] = [1, 3, 5, 7, 2, 4, 6, 8];

#[test]
fn cuts_the_worked_row(rt: HostRuntime) {
    let mut marks = [7; 9];
    assert_eq!(rt; block_starts(&ROW, &mut marks), Ok(()));
    assert_eq!(rt; marks, [1, 0, 0, 1, 0, 1, 0, 0, 7]);
}

#[test]
fn refuses_a_short_scratch(rt: HostRuntime) {
    let mut marks = [7; 2];
    assert_eq!(rt; block_starts(&[1, 2, 3], &mut marks), Err(NoRoom));
    assert_eq!(rt; marks, [7, 7]);
}

#[test]
fn hands_out_the_second_block(rt: HostRuntime) {
    let block = next_block(&ROW, &[1, 0, 0, 1, 0, 1, 0, 0], 3);
    assert_eq!(rt; block.map(|b| (b.names.len(), b.end)), Some((2, 5)));
}

#[test]
fn cuts_a_window_as_its_row(rt: HostRuntime) {
    let mut names = [9; 96];
    names[..8].copy_from_slice(&ROW);
    let marks = Window::new(names, 8, true, true).map(|w| w.block_starts());
    assert_eq!(rt; marks.map(|m| (m[3], m[4], m[5])), Some((1, 0, 1)));
}

#[test]
fn counts_a_run(rt: HostRuntime) {
    let run = next_run(&[4, 7, 7, 7, 2], 1);
    assert_eq!(rt; run.map(|r| (r.name, r.times)), Some((7, 3)));
}
