/// How far one text is from another that differs from it in one place: the most letters that either has there, capital
/// or not.
///
/// None if they have fewer than that in common besides: then one is hardly a misspelling of the other.
pub(crate) fn distance(left: &[u8], right: &[u8]) -> Option<usize> {
    let front = common_front(left, right);
    let (_, left_rest) = left.split_at_checked(front)?;
    let (_, right_rest) = right.split_at_checked(front)?;
    let back = common_back(left_rest, right_rest);
    let longest = left_rest.len().max(right_rest.len());
    let apart = longest.saturating_sub(back);
    (apart <= MOST_APART && apart < front.saturating_add(back)).then_some(apart)
}

/// How many letters a misspelling has in the place where it differs.
const MOST_APART: usize = 2;

fn common_front(left: &[u8], right: &[u8]) -> usize {
    left.iter()
        .zip(right.iter())
        .take_while(|pair| pair.0.eq_ignore_ascii_case(pair.1))
        .count()
}

fn common_back(left: &[u8], right: &[u8]) -> usize {
    left.iter()
        .rev()
        .zip(right.iter().rev())
        .take_while(|pair| pair.0.eq_ignore_ascii_case(pair.1))
        .count()
}

/// The first of the nearest words.
pub(crate) fn nearest_word(text: &[u8], words: &[&'static str]) -> Option<&'static str> {
    let mut found = None;
    let mut least = usize::MAX;
    for word in words {
        if let Some(apart) = distance(text, word.as_bytes())
            && apart < least
        {
            least = apart;
            found = Some(*word);
        }
    }
    found
}
