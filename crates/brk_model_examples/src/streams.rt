//! Streams of HTTP requests to a desk that was set up, and their replies.
#![tactic(auto, unfolding(crate::proofs::WebOnLiterals::web_on_literals))]

ghost use Rattle.std.specs.Prelude.{◌∷◌, [], codes};
ghost use Rattle.brk_model_examples.specs.Streams.{HasRepliesInSetting, get_request, request_asking_to_close, post_request, expected_reply_bytes};

/// Shows the replies to a row with a key, to its retry under this key, which returns the stored
/// reply, and to the row without a key, which is refused with `Exists` (15), since the first row
/// has added the broker.
pub fn row_is_accepted_once_per_key()
    ensures { HasRepliesInSetting
        (post_request (codes "/rows/H/1") (codes "[\"broker\",\"2\",\"Cy\"]")
        ∷ post_request (codes "/rows/H/1") (codes "[\"broker\",\"2\",\"Cy\"]")
        ∷ post_request (codes "/rows") (codes "[\"broker\",\"2\",\"Cy\"]") ∷ [])
        (expected_reply_bytes (codes "200 OK") [] (codes "24") (codes "{\"ok\":[\"1709251200016\"]}")
        ∷ expected_reply_bytes (codes "200 OK") [] (codes "27") (codes "{\"again\":[\"1709251200016\"]}")
        ∷ expected_reply_bytes (codes "409 Conflict") [] (codes "13") (codes "{\"no\":[\"15\"]}") ∷ []) }
{}

/// Shows the replies to five requests of one stream, which continues after each of the first four
/// requests: a query, a query with a surplus argument, which is refused with `BadText` (18), a
/// request with an unknown target, one with a wrong method and one with a malformed body.
pub fn stream_continues_after_refusals()
    ensures { HasRepliesInSetting
        (post_request (codes "/ask/submitted") (codes "[]")
        ∷ post_request (codes "/ask/submitted") (codes "[\"1\"]")
        ∷ get_request (codes "/nope")
        ∷ get_request (codes "/rows")
        ∷ post_request (codes "/rows") (codes "[\"broker\",2]") ∷ [])
        (expected_reply_bytes (codes "200 OK") [] (codes "11") (codes "{\"view\":[]}")
        ∷ expected_reply_bytes (codes "409 Conflict") [] (codes "13") (codes "{\"no\":[\"18\"]}")
        ∷ expected_reply_bytes (codes "404 Not Found") [] (codes "21") (codes "{\"error\":\"not found\"}")
        ∷ expected_reply_bytes (codes "405 Method Not Allowed") (codes "Allow: POST" ∷ []) (codes "30") (codes "{\"error\":\"method not allowed\"}")
        ∷ expected_reply_bytes (codes "400 Bad Request") [] (codes "23") (codes "{\"error\":\"bad request\"}") ∷ []) }
{}

/// Shows a request that asks to close its stream and has the last reply: the next request has no
/// reply.
pub fn stream_ends_after_close_request()
    ensures { HasRepliesInSetting
        (request_asking_to_close (get_request (codes "/rows")) ∷ post_request (codes "/rows") (codes "[]") ∷ [])
        (expected_reply_bytes (codes "405 Method Not Allowed") (codes "Allow: POST" ∷ codes "Connection: close" ∷ []) (codes "30")
        (codes "{\"error\":\"method not allowed\"}") ∷ []) }
{}

/// Shows the replies to an order, to its retry under its key, to a query of the view `submitted`,
/// and to a cancel of the submitted trade, which is refused with `WrongStatus` (13).
pub fn order_is_submitted_once_over_http()
    ensures { HasRepliesInSetting
        (post_request (codes "/rows/H/1") (codes "[\"order\",\"100\",\"TMB\",\"ABC\",\"100\",\"\",\"cash\",\"fifo\",\"Ann\",\"Lee\",\"T10\"]")
        ∷ post_request (codes "/rows/H/1") (codes "[\"order\",\"100\",\"TMB\",\"ABC\",\"100\",\"\",\"cash\",\"fifo\",\"Ann\",\"Lee\",\"T10\"]")
        ∷ post_request (codes "/ask/submitted") (codes " [ ] ")
        ∷ post_request (codes "/rows") (codes "[\"cancel\",\"1\"]") ∷ [])
        (expected_reply_bytes (codes "200 OK") [] (codes "90")
        (codes "{\"ok\":[\"1709251200016\",\"1\",\"SBMT\",\"10.00\",\"0.00\",\"0.00\",\"0.00\",\"10.00\",\"5.00\",\"10000.00\"]}")
        ∷ expected_reply_bytes (codes "200 OK") [] (codes "93")
        (codes "{\"again\":[\"1709251200016\",\"1\",\"SBMT\",\"10.00\",\"0.00\",\"0.00\",\"0.00\",\"10.00\",\"5.00\",\"10000.00\"]}")
        ∷ expected_reply_bytes (codes "200 OK") [] (codes "42") (codes "{\"view\":[[\"1\",\"TMB\",\"ABC\",\"100\",\"10.00\"]]}")
        ∷ expected_reply_bytes (codes "409 Conflict") [] (codes "20") (codes "{\"no\":[\"13\",\"SBMT\"]}") ∷ []) }
{}
