// The refusals by their numbers and places.
use ruleformat::fault::FileFault;

const NUMBERS: [(FileFault, u8, usize); 6] = [
    (FileFault::Short { place: 15 }, 1, 15),
    (FileFault::Kind { place: 0 }, 2, 0),
    (FileFault::Figures { place: 27 }, 3, 27),
    (FileFault::Distance { place: 14 }, 4, 14),
    (FileFault::Entry { place: 2 }, 5, 2),
    (FileFault::Verdict { place: 26 }, 6, 26),
];

#[test]
fn numbers(rt: HostRuntime) {
    for (fault, number, place) in NUMBERS {
        assert_eq!(rt; (fault.number(), fault.place()), (number, place));
    }
}
