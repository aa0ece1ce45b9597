//! Checks of HTTP requests: heads, lengths of bodies, routes, lists of texts, and their order.
#![tactic(auto, unfolding(crate::proofs::WebOnLiterals::web_on_literals))]

ghost use Rattle.std.specs.Prelude.{◌≡◌, ◌∷◌, [], ℕ, Ok, Err, Some, None, codes};
ghost use Rattle.brk_model_http.specs.Asked.{ResponseOnly, RequestDemand, model_parsers, demand_of_request};
ghost use Rattle.brk_model_http.specs.Bodies.{texts_of_body};
ghost use Rattle.brk_model_http.specs.Fields.{body_length_of_fields};
ghost use Rattle.brk_model_http.specs.Heads.{head_end, head_end_within};
ghost use Rattle.brk_model_http.specs.Replies.{FromProblem};
ghost use Rattle.brk_model_http.specs.Routes.{ToRow, ToView, split_at_byte, route_of_target};
ghost use Rattle.brk_model_http.specs.declared.head_end.HeadEnd.TheVariants.{At, Cut, Nothing, TooLong};
ghost use Rattle.brk_model_http.specs.declared.problem.RequestProblem.TheVariants.{BadRequest, NotAllowed, NotFound, NotImplemented, TooLarge};
ghost use Rattle.brk_model_examples.specs.Streams.{get_request, post_request};

/// Shows four heads that end with their first empty line, whose lines end with CR LF or with a line
/// feed alone; one of them ends exactly at its limit. Empty input is `Nothing`, and other input
/// without an empty line is `Cut` if it is shorter than the limit, and `TooLong` if its length is
/// the limit. A head whose empty line ends beyond the limit is `TooLong`.
pub fn head_ends_at_first_empty_line()
    ensures first { head_end (codes "GET / HTTP/1.1\r\n\r\nGET") ≡ At 18 }
    ensures line_feeds { head_end (codes "a\n\nb\r\n\r\n") ≡ At 3 }
    ensures mixed_line_ends { head_end (codes "a\n\r\nb") ≡ At 4 }
    ensures no_bytes { head_end [] ≡ Nothing }
    ensures cut { head_end (codes "a\r\n\r") ≡ Cut }
    ensures within_limit { head_end_within 4 (codes "ab\n\nc") ≡ At 4 }
    ensures beyond_limit { head_end_within 4 (codes "abc\n\n") ≡ TooLong }
    ensures no_empty_line { head_end_within 4 (codes "\0\0\0\0") ≡ TooLong }
{}

/// Shows that the length of a body, in bytes, is 0 without Content-Length, and otherwise the number
/// that this field states: 12 for `000000012` in a field `content-LENGTH`, and 65536, the greatest
/// length. The number 65537 and a number of ten digits are `TooLarge`, a number with a sign, a
/// value without bytes and a second Content-Length are `BadRequest`, and a Transfer-Encoding after
/// a malformed Content-Length is `NotImplemented`.
pub fn content_length_states_body_length()
    ensures no_field { body_length_of_fields ((codes "Host", codes "x") ∷ []) ≡ Ok 0 }
    ensures leading_zeros { body_length_of_fields ((codes "content-LENGTH", codes "000000012") ∷ []) ≡ Ok 12 }
    ensures greatest { body_length_of_fields ((codes "Content-Length", codes "65536") ∷ []) ≡ Ok 65536 }
    ensures above_greatest { body_length_of_fields ((codes "Content-Length", codes "65537") ∷ []) ≡ Err TooLarge }
    ensures ten_digits { body_length_of_fields ((codes "Content-Length", codes "0000000002") ∷ []) ≡ Err TooLarge }
    ensures signed { body_length_of_fields ((codes "Content-Length", codes "+2") ∷ []) ≡ Err BadRequest }
    ensures empty { body_length_of_fields ((codes "Content-Length", []) ∷ []) ≡ Err BadRequest }
    ensures two_fields { body_length_of_fields ((codes "Content-Length", codes "2") ∷ (codes "Content-Length", codes "2") ∷ []) ≡ Err BadRequest }
    ensures transfer_encoding { body_length_of_fields ((codes "Content-Length", codes "x") ∷ (codes "Transfer-Encoding", []) ∷ []) ≡ Err NotImplemented }
{}

/// Shows the routes of `/rows`, of a row under a key with the row number 1000000000000, and of the
/// view `lots`. Shows that nine targets have none: one with an unknown view, three with a row
/// number that is malformed or out of range, and one each with an encoded byte, with an empty batch
/// name, with nothing after `/rows/`, with a query string and with a host. Shows also the parts of
/// the text `1,SBMT,,`, split at its commas.
pub fn only_known_targets_have_routes()
    ensures row_without_key { route_of_target model_parsers.views (codes "/rows") ≡ Some (ToRow None) }
    ensures row_with_key { route_of_target model_parsers.views (codes "/rows/A.b-c_1/1000000000000")
        ≡ Some (ToRow (Some (record { batch = codes "A.b-c_1"; n = 1000000000000 }))) }
    ensures view { route_of_target model_parsers.views (codes "/ask/lots") ≡ Some (ToView (codes "lots")) }
    ensures unknown_view { route_of_target model_parsers.views (codes "/ask/nope") ≡ None }
    ensures row_number_zero { route_of_target model_parsers.views (codes "/rows/A/0") ≡ None }
    ensures leading_zero { route_of_target model_parsers.views (codes "/rows/A/01") ≡ None }
    ensures row_number_too_great { route_of_target model_parsers.views (codes "/rows/A/1000000000001") ≡ None }
    ensures percent_encoding { route_of_target model_parsers.views (codes "/rows/%41/1") ≡ None }
    ensures empty_batch_name { route_of_target model_parsers.views (codes "/rows//1") ≡ None }
    ensures nothing_after_rows { route_of_target model_parsers.views (codes "/rows/") ≡ None }
    ensures query_string { route_of_target model_parsers.views (codes "/ask/lots?x=1") ≡ None }
    ensures absolute_target { route_of_target model_parsers.views (codes "http://h/rows") ≡ None }
    ensures split_text { split_at_byte 44 (codes "1,SBMT,,") ≡ codes "1" ∷ codes "SBMT" ∷ [] ∷ [] ∷ [] }
{}

/// Shows that two JSON lists are read, an empty one with white space, and one of a text with two
/// escaped characters and an empty text. Seven other bodies are not read: an empty body, a list
/// with a number in it, a list with a list in it, an object, and three lists, one with a lone
/// surrogate, one with bytes that are not UTF-8, and one after a byte order mark.
pub fn json_lists_of_texts_are_read()
    ensures empty_list { texts_of_body (codes " [ ] ") ≡ Some [] }
    ensures escaped_characters { texts_of_body (codes "[\"\\u0041\\n\",\"\"]") ≡ Some ((65 ∷ 10 ∷ []) ∷ [] ∷ []) }
    ensures empty_body { texts_of_body [] ≡ None }
    ensures number_in_list { texts_of_body (codes "[\"a\",2]") ≡ None }
    ensures nested_list { texts_of_body (codes "[[]]") ≡ None }
    ensures object { texts_of_body (codes "{}") ≡ None }
    ensures lone_surrogate { texts_of_body (codes "[\"\\ud83d\"]") ≡ None }
    ensures invalid_utf8 { texts_of_body (91 ∷ 34 ∷ 255 ∷ 34 ∷ 93 ∷ []) ≡ None }
    ensures byte_order_mark { texts_of_body (239 ∷ 187 ∷ 191 ∷ 91 ∷ 93 ∷ []) ≡ None }
{}

/// Shows three requests: a GET request for an unknown view is `NotFound`, a GET request for a known
/// view, without a body, is `NotAllowed`, and a POST request for a known view with a malformed body
/// is `BadRequest`. Thus the route is checked before the method, and the method before the body.
pub fn route_is_checked_before_method_and_body()
    ensures route { demand_of_request model_parsers (get_request (codes "/ask/nope")) ≡ ResponseOnly (FromProblem NotFound) }
    ensures method { demand_of_request model_parsers (get_request (codes "/ask/lots")) ≡ ResponseOnly (FromProblem NotAllowed) }
    ensures body { demand_of_request model_parsers (post_request (codes "/ask/lots") (codes "[")) ≡ ResponseOnly (FromProblem BadRequest) }
{}
