// Which bytes are the path of a property.
ghost use Rattle.std.specs.Prelude.{◌≡◌, count_by};
ghost use Rattle.std.specs.List.{list_any};
ghost use Rattle.muck_lock.specs.Paths.{segments_in, is_in_segment, is_barred, is_path};

const SEGMENTS_MOST: usize = 16;

const PATH_MOST: usize = 128;

// How many segments stand between the `/`, without the empty ones.
fn segments_in(bytes: &[u8]) -> usize
    ensures { result ≡ segments_in bytes.now }
{
    let mut inside = false;
    let mut segments = 0;
    for b in bytes {
        if *b == b'/' {
            inside = false;
        } else {
            if !inside {
                segments += 1;
            }
            inside = true;
        }
    }
    segments
}

fn bytes_in_segments(bytes: &[u8]) -> usize
    ensures { result ≡ count_by is_in_segment bytes.now }
{
    bytes.iter().filter(|b| **b != b'/').count()
}

fn has_barred(bytes: &[u8]) -> bool
    ensures { result ≡ list_any is_barred bytes.now }
{
    bytes.iter().any(|b| *b == b':' || *b == 13)
}

// Whether reading the bytes as the path of a property takes them.
pub fn is_path(bytes: &[u8]) -> bool
    ensures { result ≡ is_path bytes.now }
{
    let segments = segments_in(bytes);
    !has_barred(bytes)
        && 1 <= segments
        && segments <= SEGMENTS_MOST
        && bytes_in_segments(bytes) + segments <= PATH_MOST + 1
}
