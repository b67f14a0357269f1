use crate::line_filter;

#[test]
fn line_across_a_step(rt: HostRuntime) {
    for (level, wanted) in [
        (32, [101, 101, 102, 103]),
        (1, [100, 100, 104, 104]),
        (0, [100, 100, 104, 104]),
    ] {
        let mut line = [100, 100, 104, 104];
        line_filter(&mut line, 4, level, 8);
        assert_eq!(rt; line, wanted, "level {level}");
    }
}
