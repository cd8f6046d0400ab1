//! The sum of bytes, beside another program's.
use ppq_checked::sum;

// The sums were computed by a program in Python, after the rule alone:
//
//     def step(lane, number):
//         product = (lane ^ number) * 0x9E3779B97F4A7C15 % 2**64
//         return (product << 29 | product >> 35) % 2**64
//
//     def sum_of(data):
//         words = [int.from_bytes(data[i:i + 8], "little") for i in range(0, len(data) // 8 * 8, 8)]
//         in_rows = len(words) // 4 * 4
//         lanes = [1, 2, 3, 4]
//         for place, word in enumerate(words[:in_rows]):
//             lanes[place % 4] = step(lanes[place % 4], word)
//         total = lanes[0]
//         for number in lanes[1:] + words[in_rows:] + list(data[len(words) * 8:]):
//             total = step(total, number)
//         return total
//
//     print(sum_of(b""), sum_of(bytes(range(1, 44))), sum_of(bytes([7] * 64)))
#[test]
fn the_sum_of_bytes_is_as_another_program_has_it(rt: HostRuntime) {
    // a row of four words, a word behind the rows, and three bytes behind the words
    let mut bytes = [0; 43];
    for (byte, place) in bytes.iter_mut().zip(1..44u8) {
        *byte = place;
    }
    assert_eq!(rt; sum(&[]), 11_641_469_810_768_713_201);
    assert_eq!(rt; sum(&bytes), 1_270_485_440_932_392_619);
    assert_eq!(rt; sum(&[7; 64]), 7_805_161_566_104_536_828);
}
