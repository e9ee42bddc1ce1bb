//! Laws about the requests and the ending that the bytes of a stream have.
ghost use Rattle.ob_http_requests.specs.Laws.{OneRequest, RequestIsNoEnding, OneEnding, EndingIsNoCut, OneStream};

/// States that bytes begin with at most one request, and if they do, they have no ending.
pub fn one_request()
    ensures request { OneRequest }
    ensures no_ending { RequestIsNoEnding }
{}

/// States that bytes have at most one ending, and if they have one, they are not cut off. The
/// exception is bytes that end inside a target: both 400 and 431 may answer them.
pub fn one_ending()
    ensures ending { OneEnding }
    ensures no_cut { EndingIsNoCut }
{}

/// States that a stream has at most one list of requests and then at most one ending, apart from
/// the exception of `one_ending`.
pub fn one_stream()
    ensures { OneStream }
{}
